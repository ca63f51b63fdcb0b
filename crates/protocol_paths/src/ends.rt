ghost use Rattle.std.specs.Prelude.{◌≡◌, ◌<◌, ◌++◌, [], ◌∷◌, map, IfOk, OnOk};
ghost use Rattle.protocol_paths.specs.Flat.{IsImage, entry, private_entries, privates_at};
ghost use Rattle.protocol_paths.specs.Path.{item_messages, message_paths};
ghost use Rattle.protocol_paths.specs.Scope.{after};
ghost use Rattle.protocol_paths.specs.inner.AddsEach.{AddsEach};
ghost use Rattle.protocol_paths.specs.inner.AddsEnds.{AddsEnds, AreEnds, item_entries};
ghost use Rattle.protocol_paths.specs.inner.Links.{step_of};
ghost use Rattle.protocol_paths.specs.inner.ScopeOf.{protocols_of, scope_of};

use super::context::Context;
use super::copies::shared_word;
use super::descent::{next_links, next_scope, top_scope};
use super::flat_protocol::SchemaList;
use super::image::image_of;
use super::link::{Link, PathLink};
use super::link_lookup::{followed_link, shorter_context};
use super::own_words::{link_words, scope_words};
use super::scope::Scope;
use bspl_parser::{Declaration, Item, Schema, WordList};
use bspl_types::{NoMemory, Seq};
use std::alloc::Global;

/// What is at the ends of paths.
#[derive(Drop)]
pub(crate) struct Ends<'d> {
    /// The private parameters.
    pub private: WordList<'d>,
    /// The messages.
    pub messages: SchemaList<'d>,
}

/// What is at the ends of the paths from the top protocol.
pub(crate) fn ends_of<'d>(
    context: &Context<'d, '_>,
    top: &'d Declaration<'d>,
) -> Result<Ends<'d>, NoMemory>
    ensures { IfOk result (AreEnds context.now.limit (protocols_of context.now) top.now) }
{
    let scope = top_scope(top);
    let mut ends = Ends {
        private: Seq::new(context.alloc),
        messages: Seq::new(context.alloc),
    };
    add_ends(context, &scope, &mut ends)?;
    Ok(ends)
}

/// Adds what is at the ends of the paths from the scope.
#[cycle(ends)]
fn add_ends<'d>(
    context: &Context<'d, '_>,
    scope: &Scope<'d, '_>,
    ends: &mut Ends<'d>,
) -> Result<(), NoMemory>
    ensures { OnOk result (AddsEnds (scope_of scope.now)
        (private_entries context.now.limit (protocols_of context.now) (scope_of scope.now))
        (message_paths context.now.limit (protocols_of context.now) scope.now.protocol.now)
        ends.old ends.new) }
{
    add_own(scope, &mut ends.private)?;
    let items = scope.protocol.body.as_slice();
    for (index, item) in items.iter().enumerate() {
        add_item(context, scope, index + 1, item, ends)?;
    }
    Ok(())
}

/// Adds a message of the body, or what a reference leads to.
#[cycle(ends)]
fn add_item<'d>(
    context: &Context<'d, '_>,
    scope: &Scope<'d, '_>,
    position: usize,
    item: &'d Item<'d>,
    ends: &mut Ends<'d>,
) -> Result<(), NoMemory>
    requires counted { 0 < position }
    ensures { OnOk result (AddsEnds (scope_of scope.now)
        (item_entries context.now.limit (protocols_of context.now) (scope_of scope.now)
        (position, item.now))
        (item_messages context.now.limit (protocols_of context.now) (position, item.now))
        ends.old ends.new) }
{
    match item {
        Item::Message(schema) => add_image(context.alloc, scope, schema, &mut ends.messages),
        Item::Reference(reference) => {
            if context.limit == 0 {
                return Ok(());
            }
            let Some(link) = followed_link(context, position, reference) else {
                return Ok(());
            };
            add_linked(&shorter_context(context), scope, &link, ends)
        }
    }
}

/// Adds what the link leads to.
#[cycle(ends)]
fn add_linked<'d>(
    context: &Context<'d, '_>,
    scope: &Scope<'d, '_>,
    link: &Link<'d, '_>,
    ends: &mut Ends<'d>,
) -> Result<(), NoMemory>
    ensures { OnOk result (AddsEnds (after (scope_of scope.now) (step_of link.now))
        (private_entries context.now.limit (protocols_of context.now)
        (after (scope_of scope.now) (step_of link.now)))
        (message_paths context.now.limit (protocols_of context.now) link.now.target.now)
        ends.old ends.new) }
{
    let own = link_words(context.alloc, scope, link)?;
    // both are lent again, for as long as the words live
    let last = PathLink {
        link: *link,
        own: own.as_slice(),
    };
    let links = next_links(context.alloc, &*scope, last)?;
    let next = next_scope(scope, &last, links.as_slice());
    add_ends(context, &next, ends)
}

/// Adds the private parameters of the scope's protocol.
fn add_own<'d>(scope: &Scope<'d, '_>, private: &mut WordList<'d>) -> Result<(), NoMemory>
    ensures { OnOk result (map entry private.new ≡ map entry private.old
        ++ privates_at (scope_of scope.now)) }
{
    let own = scope_words(scope);
    for word in own {
        private.push(shared_word(word)?)?;
    }
    Ok(())
}

/// Adds the image of a message of the body.
fn add_image<'d>(
    alloc: Global,
    scope: &Scope<'d, '_>,
    schema: &'d Schema<'d>,
    messages: &mut SchemaList<'d>,
) -> Result<(), NoMemory>
    ensures { OnOk result (AddsEach (IsImage (scope_of scope.now)) (schema.now ∷ [])
        messages.old messages.new) }
{
    messages.push(image_of(alloc, scope, schema)?)
}
