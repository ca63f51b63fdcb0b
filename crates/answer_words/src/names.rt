ghost use Rattle.std.specs.Prelude.{◌≡◌, ◌++◌, [], IfOk, OnOk, map};
ghost use Rattle.protocol_names.specs.Names.{protocol_words, texts};
ghost use Rattle.answer_words.specs.Uses.{declared_as};

use super::uses::Kind;
use bspl_parser::{Declaration, Formal, Word};
use list_base::{NoMemory, Seq};
use std::alloc::Global;

/// Names where they stand in a document.
pub(crate) type LentNames<'d> = Seq<&'d [u8]>;

/// The names that are declared as that for the protocol.
pub(crate) fn declared_as<'d>(
    alloc: Global,
    protocols: &'d [Declaration<'_>],
    protocol: &'d Declaration<'_>,
    kind: Kind,
) -> Result<LentNames<'d>, NoMemory>
    ensures { IfOk result (λ names.
        map (λ name. name.now) names ≡ declared_as protocols.now protocol.now kind) }
{
    let mut names = Seq::new(alloc);
    match kind {
        Kind::Role => push_words(&mut names, protocol.roles.as_slice())?,
        Kind::Parameter => {
            push_params(&mut names, protocol.public.as_slice())?;
            push_words(&mut names, protocol.private.as_slice())?;
        }
        Kind::Protocol => return protocol_names(alloc, protocols),
    }
    Ok(names)
}

/// The names of the protocols.
pub(crate) fn protocol_names<'d>(
    alloc: Global,
    protocols: &'d [Declaration<'_>],
) -> Result<LentNames<'d>, NoMemory>
    ensures { IfOk result (λ names.
        map (λ name. name.now) names ≡ texts (protocol_words protocols.now)) }
{
    let mut names = Seq::new(alloc);
    for protocol in protocols {
        names.push(protocol.name.text.as_slice())?;
    }
    Ok(names)
}

/// Appends the names of the words.
fn push_words<'d>(names: &mut LentNames<'d>, words: &'d [Word<'_>]) -> Result<(), NoMemory>
    ensures { OnOk result (map (λ name. name.now) names.new ≡
        map (λ name. name.now) names.old ++ texts words.now) }
{
    for word in words {
        names.push(word.text.as_slice())?;
    }
    Ok(())
}

/// Appends the names of adorned parameters.
fn push_params<'d>(names: &mut LentNames<'d>, params: &'d [Formal<'_>]) -> Result<(), NoMemory>
    ensures { OnOk result (map (λ name. name.now) names.new ≡
        map (λ name. name.now) names.old ++ texts (map (λ f. f.name) params.now)) }
{
    for param in params {
        names.push(param.name.text.as_slice())?;
    }
    Ok(())
}
