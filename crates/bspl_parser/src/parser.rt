ghost use Rattle.std.specs.Prelude.{◌≡◌, IfOk, IfErr};
ghost use Rattle.bspl_parser.specs.Judgement.{IsText, IsRefusedFor};
ghost use Rattle.bspl_parser.specs.inner.ParseResult.{error_offset};

use super::document::Document;
use super::grammar::read_document;
use super::parse_error::{ErrorPosition, ParseError};
use super::token_stream::TokenStream;
use bspl_types::Refusal;
use std::alloc::Global;

/// The offset of an error in a text of that length.
fn error_offset(position: ErrorPosition, len: usize) -> u64
    ensures { result ≡ error_offset position len }
{
    match position {
        ErrorPosition::At(offset) => offset,
        ErrorPosition::End => len as u64,
    }
}

/// The document that the text spells. Otherwise the text is refused at an offset: that of the first
/// byte at which no token begins; or, if there is none, that of the first token that no valid
/// document can have at that point, or the end of the text if more has to come.
pub fn parse(alloc: Global, text: &[u8]) -> Result<Document<'_>, Refusal>
    ensures ok { IfOk result (IsText text.now) }
    ensures refused { IfErr result (IsRefusedFor text.now) }
{
    if text.len() > u32::MAX as usize {
        return Err(Refusal::NoMemory);
    }
    let mut stream = TokenStream::scan(text, 0);
    let reading = read_document(alloc, &mut stream);
    if let Some(offset) = stream.bad_byte() {
        return Err(Refusal::Byte { offset });
    }
    match reading {
        Ok(document) => Ok(document),
        Err(ParseError::NoMemory) => Err(Refusal::NoMemory),
        Err(ParseError::Invalid(position)) => {
            let offset = error_offset(position, text.len());
            Err(Refusal::Syntax { offset })
        }
    }
}
