use bspl_parser::{parse, reads_back};
use bspl_types::{Expanded, Refusal};
use protocol_expand::{expand, print_expanded};
use std::alloc::Global;

/// Texts without an expansion: one name, one adornment or one item is at fault.
const NOT_EXPANDED: &[&[u8]] = &[
    b"P { roles A, B parameters out ID key Q(A, B, out ID) }",
    b"P { roles A, B parameters out ID key C -> B: m[out ID] }",
    b"P { roles A, B parameters out ID key A -> C: m[out ID] }",
    b"P { roles A, B parameters out ID key ID -> B: m[out ID] }",
    b"P { roles A, B parameters out ID key A -> B: m[out x] }",
    b"P { roles A, B parameters out ID key A -> B: m[out A] }",
    b"P { roles A, B parameters any ID key A -> B: m[out ID] }",
    b"P { roles A, B parameters opt ID key A -> B: m[out ID] }",
    b"P { roles A, B parameters out ID key A -> B: m[any ID] }",
    b"P { roles A, B parameters out ID key A -> B: m[opt ID] }",
    b"P { roles A, A parameters out ID key A -> A: m[out ID] }",
    b"P { roles A, B parameters out ID key, out ID A -> B: m[out ID] }",
    b"P { roles A, B parameters out ID key private ID A -> B: m[out ID] }",
    b"P { roles A, B parameters out ID key private x, x A -> B: m[out ID] }",
    b"P { roles A, B parameters out ID key A -> B: m[out ID] B -> A: m[in ID] }",
];

/// A text with each kind of thing that an expansion has.
const LOOSE: &[u8] =
    b"P{roles A-1,B parameters out ID key,nil w private x B->A-1:m[in ID key, nil x]}";

const LAID_OUT: &[u8] = b"P {
  roles A-1, B
  parameters out ID key, nil w
  private x
  B -> A-1: m[in ID, nil x]
}
";

/// A reference that gives a role twice, so that the expansion is not admitted.
const TWICE: &[u8] = b"P { role A parameter out ID key Q(A, A, out ID) }
Q { roles R, S parameter out k key R -> S: m[out k] S -> R: n[in k] }";

const TWICE_EXPANDED: &[u8] = b"P {
  roles A
  parameters out ID key
  A -> A: Q#1.m[out ID]
  A -> A: Q#1.n[in ID]
}
";

/// The expansion of the protocol `P` of the text.
fn expansion(alloc: Global, text: &[u8]) -> Result<Expanded, Refusal> {
    // law: the document of a text is well formed
    reads_back();
    let document = parse(alloc, text)?;
    expand(alloc, &document, b"P")
}

/// Whether the protocol `P` of the text has an expansion; nothing if this is no text.
pub(crate) fn is_expanded(alloc: Global, text: &[u8]) -> Option<bool> {
    match expansion(alloc, text) {
        Ok(_) => Some(true),
        Err(Refusal::NoMemory | Refusal::Byte { .. } | Refusal::Syntax { .. }) => None,
        Err(_) => Some(false),
    }
}

#[test]
fn one_fault_leaves_nothing(rt: HostRuntime) {
    for text in NOT_EXPANDED {
        assert!(rt; is_expanded(rt.alloc(), text) == Some(false));
    }
}

/// Whether the expansion is printed so.
fn is_printed(alloc: Global, x: &Expanded, wanted: &[u8]) -> bool {
    match print_expanded(alloc, x) {
        Ok(text) => text.as_slice() == wanted,
        Err(_) => false,
    }
}

/// Whether the text's expansion is printed so.
fn has_layout(alloc: Global, text: &[u8], wanted: &[u8]) -> bool {
    match expansion(alloc, text) {
        Ok(x) => is_printed(alloc, &x, wanted),
        Err(_) => false,
    }
}

#[test]
fn an_expansion_is_printed(rt: HostRuntime) {
    assert!(rt; has_layout(rt.alloc(), LOOSE, LAID_OUT));
    assert!(rt; has_layout(rt.alloc(), TWICE, TWICE_EXPANDED));
}
