use bspl_parser::{Declaration, Document, parse};
use list_base::NoMemory;
use protocol_names::{DocumentFault, FaultKind, NameTable, first_fault};
use std::alloc::Global;
use std::test::Fail;

/// Two roles have one name, and the adornment of a public parameter is not allowed.
const TWO_FAULTS: &[u8] = b"P { roles A, A parameters any ID key }";

/// The names of a table, in order.
const NAMES: &[&[u8]] = &[
    b"buyer",
    b"seller",
    b"buyer",
    b"bank",
    b"carrier",
    b"first office of customs",
    b"second office of customs",
    b"insurer",
    b"broker",
    b"insurer",
];

/// A name, and its first index in the table, if it is there.
struct Found {
    name: &'static [u8],
    index: Option<usize>,
}

const FOUND: &[Found] = &[
    Found {
        name: b"buyer",
        index: Some(0),
    },
    Found {
        name: b"seller",
        index: Some(1),
    },
    Found {
        name: b"bank",
        index: Some(3),
    },
    Found {
        name: b"first office of customs",
        index: Some(5),
    },
    Found {
        name: b"second office of customs",
        index: Some(6),
    },
    Found {
        name: b"insurer",
        index: Some(7),
    },
    Found {
        name: b"ban",
        index: None,
    },
    Found {
        name: b"Seller",
        index: None,
    },
];

/// The fault of that text which comes first.
const DUPLICATE: DocumentFault = DocumentFault {
    kind: FaultKind::Duplicate,
    offset: 13,
};

/// Moves the first public parameter to the offset; whether there is one.
fn move_parameter(p: &mut Declaration, offset: u64) -> bool {
    if p.public.is_empty() {
        return false;
    }
    let parameter = p.public.at_mut(0);
    parameter.offset = offset;
    true
}

/// Moves the first public parameter of the first protocol to the offset; whether there is one.
fn move_first_parameter(document: &mut Document, offset: u64) -> bool {
    !document.protocols.is_empty() && move_parameter(document.protocols.at_mut(0), offset)
}

/// Whether two roles of one name come first where both faults are at the offset of the second.
fn is_duplicate_first(alloc: Global) -> bool {
    match parse(alloc, TWO_FAULTS) {
        Ok(mut document) => {
            move_first_parameter(&mut document, DUPLICATE.offset)
                && first_fault(alloc, &document) == Ok(Some(DUPLICATE))
        }
        Err(_) => false,
    }
}

/// No text has two faults at one offset, so one is moved there.
#[test]
fn at_one_offset_the_kind_that_comes_first_counts(rt: HostRuntime) -> Result<(), Fail> {
    assert!(rt; is_duplicate_first(rt.alloc()));
    Ok(())
}

/// The table of the names, in order.
fn table(alloc: Global) -> Result<NameTable<'static>, NoMemory> {
    let mut table = NameTable::new(alloc);
    for name in NAMES {
        table.push(name)?;
    }
    Ok(table)
}

/// Whether the name has its first index in the table, or none.
fn is_found(table: &NameTable, row: &Found) -> bool {
    table.index(row.name) == row.index && table.has(row.name) == row.index.is_some()
}

/// Whether the table has each name, and each first index.
fn are_found(alloc: Global) -> Result<bool, NoMemory> {
    let table = table(alloc)?;
    Ok(table.len() == NAMES.len() && FOUND.iter().all(|row| is_found(&table, row)))
}

#[test]
fn a_name_keeps_its_first_index(rt: HostRuntime) -> Result<(), Fail> {
    assert!(rt; are_found(rt.alloc()) == Ok(true));
    Ok(())
}
