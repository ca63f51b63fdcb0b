ghost use Rattle.html.specs.Markup.{BytesAreShown, MarksAreThoseOfTags};
ghost use Rattle.html.specs.Markup.{TemplatesKeepTheirMarks};

/// A law: no name and no value puts markup into a page.
pub fn marks_are_those_of_tags()
    ensures { MarksAreThoseOfTags }
{}

/// A law: words and numbers in the holes of a template add no markup to it.
pub fn templates_keep_their_marks()
    ensures { TemplatesKeepTheirMarks }
{}

/// A law: each byte of words is shown, by itself or by an entity.
pub fn bytes_are_shown()
    ensures { BytesAreShown }
{}
