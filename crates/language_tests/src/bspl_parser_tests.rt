use bspl_parser::{Declaration, Document, Word, parse};
use std::alloc::Global;
use std::test::Fail;

const PING: &[u8] = b"Ping { roles A, B parameters out ID key A -> B: ping[out ID] }";

const PURCHASE: &[u8] = b"Purchase {
  roles B, S, Shipper
  parameters out ID key, out item, out price, out outcome
  private address, response
  B -> S: rfq[out ID, out item]
  S -> B: quote[in ID, in item, out price]
  B -> S: accept[in ID, in item, in price, out address, out response]
  B -> S: reject[in ID, in item, in price, out outcome, out response]
  S -> Shipper: ship[in ID, in item, in address]
  Shipper -> B: deliver[in ID, in item, in address, out outcome]
}";

const RACE: &[u8] = b"Race {
  roles B, S
  parameters out ID key, out outcome
  private stop
  B -> S: order[out ID]
  B -> S: cancel[in ID, out stop, out outcome]
  S -> B: ship[in ID, nil stop, out outcome]
}";

/// Whether the words are these, each at its offset.
fn are_words(words: &[Word], wanted: &[(&[u8], u64)]) -> bool {
    let mut pairs = words.iter().zip(wanted);
    words.len() == wanted.len()
        && pairs.all(|(w, (text, offset))| w.text.as_slice() == *text && w.offset == *offset)
}

/// Whether the protocol is Ping, each part at its offset.
fn is_ping(p: &Declaration) -> bool {
    let public = p.public.as_slice();
    p.name.offset == 0
        && are_words(p.roles.as_slice(), &[(b"A", 13), (b"B", 16)])
        && public.len() == 1
        && public.iter().all(|f| f.offset == 29 && f.key == Some(36))
}

/// Whether the document is that of Ping alone.
fn is_ping_alone(document: &Document) -> bool {
    let protocols = document.protocols.as_slice();
    protocols.len() == 1 && protocols.iter().all(|p| is_ping(p))
}

/// Whether the text of Ping is that of Ping alone.
fn is_ping_read(alloc: Global) -> bool {
    match parse(alloc, PING) {
        Ok(document) => is_ping_alone(&document),
        Err(_) => false,
    }
}

#[test]
fn words_have_their_offsets(rt: HostRuntime) -> Result<(), Fail> {
    assert!(rt; is_ping_read(rt.alloc()));
    Ok(())
}

/// A text, and its number of roles, public and private parameters and items, summed over its
/// protocols.
struct Row {
    text: &'static [u8],
    counts: [usize; 4],
}

const ROWS: &[Row] = &[
    Row {
        text: PING,
        counts: [2, 1, 0, 1],
    },
    Row {
        text: PURCHASE,
        counts: [3, 4, 2, 6],
    },
    Row {
        text: RACE,
        counts: [2, 2, 1, 3],
    },
    Row {
        text: b"P{role A parameter out x key}",
        counts: [1, 1, 0, 0],
    },
    Row {
        text: b"\t P {\r\n roles A // one role\n parameters out x\n}\r\n// the end",
        counts: [1, 1, 0, 0],
    },
    Row {
        text: b"//\n// a\n\nP//b\n{role//c\nA parameter out x}//",
        counts: [1, 1, 0, 0],
    },
    Row {
        text: b"P{role A // \0 \xFF ; \xE2\n parameter out x}",
        counts: [1, 1, 0, 0],
    },
    Row {
        text: b"P{roles A-1,B parameters out ID key A-1->B:m[out ID]}",
        counts: [2, 1, 0, 1],
    },
    Row {
        text: b"P{roles A,B parameters out x key A \xE2\x86\xA6 B: m[out x] }",
        counts: [2, 1, 0, 1],
    },
    Row {
        text: b"P{roles A,B parameters out x A\xE2\x86\xA6B:m[out x]}",
        counts: [2, 1, 0, 1],
    },
    Row {
        text: b"P{roles rolesA,in#1.key parameters out inner}",
        counts: [2, 1, 0, 0],
    },
    Row {
        text: b"P{roles a#1.roles,a#1.b#20.c-1 parameters out _}",
        counts: [2, 1, 0, 0],
    },
    Row {
        text: b"P{roles role1,private-a parameters in inner,nil nilly,opt o A->_:key-1[any anyway]}",
        counts: [2, 3, 0, 1],
    },
    Row {
        text: b"P{roles A,A parameters out x,out x}",
        counts: [2, 2, 0, 0],
    },
    Row {
        text: b"P{roles A,B parameters in x,nil y,out z private u,v}",
        counts: [2, 3, 2, 0],
    },
    Row {
        text: b"P{role A parameter out x Q(A)R(A,A,nil y,opt z key)}",
        counts: [1, 1, 0, 2],
    },
    Row {
        text: b"P { roles A, B parameters out x key A -> B: m[in x key, opt y] }",
        counts: [2, 1, 0, 1],
    },
    Row {
        text: b"P{role A parameter out x}P{role A parameter out x}",
        counts: [2, 2, 0, 0],
    },
    Row {
        text: b"P{roles A parameters any x,opt y,nil z,in a#1.b key Q(A,in x,out y key)}
Q{roles R parameters in x,out y}",
        counts: [2, 6, 0, 1],
    },
    Row {
        text: b"P { roles rolesA parameters out inner rolesA->rolesA:_m1[in inner] }",
        counts: [1, 1, 0, 1],
    },
];

/// The numbers of the document, summed over its protocols.
fn counts_of(document: &Document) -> [usize; 4] {
    let mut counts = [0usize; 4];
    for p in document.protocols.as_slice() {
        let more = [p.roles.len(), p.public.len(), p.private.len(), p.body.len()];
        for (count, len) in counts.iter_mut().zip(more) {
            *count = count.saturating_add(len);
        }
    }
    counts
}

/// The numbers of the document that the text spells.
fn counts_in(alloc: Global, text: &[u8]) -> Option<[usize; 4]> {
    let document = parse(alloc, text).ok()?;
    Some(counts_of(&document))
}

#[test]
fn each_text_is_read(rt: HostRuntime) {
    for row in ROWS {
        assert!(rt; counts_in(rt.alloc(), row.text) == Some(row.counts));
    }
}
