use bspl_parser::{parse, print};
use bspl_types::Bytes;
use std::alloc::Global;

/// A text that is its own layout.
const TOP: &[u8] = b"Top {
  roles A, B
  parameters out ID key, out x, out y
  private P#2.t, P#3.t
  A -> B: start[out ID]
  A -> B: P#2.m[in ID, out x, out P#2.t]
  B -> A: P#3.m[in ID, out y, out P#3.t]
}
";

/// A text that has each line of the grammar.
const ALL: &[u8] =
    b"Q{roles R,S-1 parameters any x key,opt y,nil z,in w private p,q Sub(R,in x,nil z,any y key)
Sub#2.a(R)R->S-1:m[opt p key,nil q]}S{role A parameter out x key A\xE2\x86\xA6A:n[out x]}";

const ALL_LAID_OUT: &[u8] = b"Q {
  roles R, S-1
  parameters any x key, opt y, nil z, in w
  private p, q
  Sub(R, in x, nil z, any y key)
  Sub#2.a(R)
  R -> S-1: m[opt p key, nil q]
}

S {
  roles A
  parameters out x key
  A -> A: n[out x]
}
";

/// A text that has blanks and comments.
const LOOSE: &[u8] =
    b"// first\r\n\t P {\r\n role A // role\n,B parameters out x, // y\nin z\n\n}\r\n// the end";

const LOOSE_LAID_OUT: &[u8] = b"P {
  roles A, B
  parameters out x, in z
}
";

/// A text and its layout.
struct Layout {
    text: &'static [u8],
    laid_out: &'static [u8],
}

const LAYOUTS: &[Layout] = &[
    Layout {
        text: TOP,
        laid_out: TOP,
    },
    Layout {
        text: ALL,
        laid_out: ALL_LAID_OUT,
    },
    Layout {
        text: LOOSE,
        laid_out: LOOSE_LAID_OUT,
    },
];

/// The layout of the document that the text spells.
fn layout_of(alloc: Global, text: &[u8]) -> Option<Bytes> {
    let document = parse(alloc, text).ok()?;
    print(alloc, &document).ok()
}

/// Whether the text has the layout, and the layout itself too.
fn has_layout(alloc: Global, text: &[u8], wanted: &[u8]) -> bool {
    let Some(layout) = layout_of(alloc, text) else {
        return false;
    };
    let again = layout_of(alloc, layout.as_slice());
    layout.as_slice() == wanted && again.is_some_and(|l| l.as_slice() == wanted)
}

#[test]
fn each_document_has_its_layout(rt: HostRuntime) {
    for row in LAYOUTS {
        assert!(rt; has_layout(rt.alloc(), row.text, row.laid_out));
    }
}
