ghost use Rattle.std.specs.Prelude.{◌≡◌, IfOk, IsErrOf, IsOkAnd, OnErr, OnOk};
ghost use Rattle.kept_lines.specs.FileKind.{HasHead, IsOfKind};
ghost use Rattle.kept_lines.specs.FoundLines.{FailsToMake, with_head};
ghost use Rattle.kept_lines.specs.Text.{AreTextLines};

use super::file_image::{FileKind, file_kind};
use super::line_file::{LineFile, store};
use super::open_refusal::OpenRefusal;
use list_base::Bytes;
use std::alloc::Global;
use std::io;

/// Sees to it that the file, which has this image, is a journal that begins with the head, and gives
/// the image that it has then. One in which a crash cut the head short gets the head.
#[tactic(auto, using(crate::proofs::KindLemmas::head_has_itself))]
pub fn ensure_head<F: LineFile>(
    alloc: Global,
    file: &mut F,
    image: Bytes,
    head: &[u8],
) -> Result<Bytes, OpenRefusal>
    requires { AreTextLines head.now }
    ensures begins { IfOk result (λ text. HasHead head.now text) }
    ensures found { IsOfKind head.now image FileKind.Journal →
        IsOkAnd result (λ text. text ≡ image) × (F.calls file.new ≡ F.calls file.old) }
    ensures made { IsOfKind head.now image FileKind.Unmade → IfOk result (λ text.
        (text ≡ head.now) × (F.calls file.new ≡ with_head (F.calls file.old) head.now)) }
    ensures fails { IsOfKind head.now image FileKind.Unmade →
        OnErr result (FailsToMake (F.calls file.old) (F.calls file.new) head.now) }
    ensures other { IsOfKind head.now image FileKind.Other →
        IsErrOf result OpenRefusal.AnotherJournal × (F.calls file.new ≡ F.calls file.old) }
{
    match file_kind(head, image.as_slice()) {
        FileKind::Journal => Ok(image),
        FileKind::Unmade => {
            let whole = Bytes::from_slice(alloc, head)?;
            write_head(file, head)?;
            Ok(whole)
        }
        FileKind::Other => Err(OpenRefusal::AnotherJournal),
    }
}

/// Writes the head into the file, in place of all that is there.
fn write_head<F: LineFile>(file: &mut F, head: &[u8]) -> io::Result<()>
    ensures ok { OnOk result (F.calls file.new ≡ with_head (F.calls file.old) head.now) }
    ensures err { OnErr result (FailsToMake (F.calls file.old) (F.calls file.new) head.now) }
{
    file.cut(0)?;
    store(file, true, 0, head)
}
