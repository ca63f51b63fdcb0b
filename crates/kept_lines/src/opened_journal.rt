ghost use Rattle.std.specs.Prelude.{◌≡◌, true, IfOk, IsErrOf, IsOkAnd};
ghost use Rattle.kept_lines.specs.FileCalls.{Cut, noted};
ghost use Rattle.kept_lines.specs.FileJournal.{IsBegunFile};
ghost use Rattle.kept_lines.specs.FileKind.{HasHead, IsOfKind};
ghost use Rattle.kept_lines.specs.FoundLines.{HasFoundLines, found_len, made_lines};
ghost use Rattle.kept_lines.specs.Text.{AreTextLines};

use super::file_head::ensure_head;
use super::file_image::FileKind;
use super::file_journal::FileJournal;
use super::line_file::LineFile;
use super::open_refusal::OpenRefusal;
use super::text::text_len;
use list_base::Bytes;
use std::alloc::Global;
use std::fs::File;
use std::marker::Model;

/// A file that was opened as a journal, and the lines that it held. Nothing was written to it yet,
/// but its head, if it had none. So who judges the lines, and finds them wrong, drops this, and the
/// file is as it was.
#[derive(Drop)]
pub struct OpenedJournal<F: LineFile = File> {
    file: F,
    image: Bytes,
    text_len: usize,
    head_len: usize,
}

impl<F: LineFile> Model for OpenedJournal<F> {
    ghost use Rattle.std.specs.Prelude.{◌≤◌, drop, length, take};
    ghost use Rattle.kept_lines.specs.FoundLines.{FoundLines};
    ghost use Rattle.kept_lines.specs.Text.{AreTextLines};

    ghost Value = { FoundLines };

    ghost view = { λ o. record {
      head = take o.head_len (take o.text_len o.image);
      lines = drop o.head_len (take o.text_len o.image);
      calls = F.calls o.file;
    } };

    ghost invariant = { λ o. (o.head_len ≤ o.text_len) × (o.text_len ≤ length o.image) ×
        AreTextLines (drop o.head_len (take o.text_len o.image)) };
}

impl<F: LineFile + Drop> OpenedJournal<F> {
    /// Opens a file with this image as a journal that begins with the head. Of a file that is
    /// another nothing is asked, and it is dropped.
    #[tactic(auto, using(crate::proofs::KindLemmas::head_alone))]
    pub fn opened_as(
        alloc: Global,
        file: F,
        image: Bytes,
        head: &[u8],
    ) -> Result<OpenedJournal<F>, OpenRefusal>
        requires { AreTextLines head.now }
        ensures head { IfOk result (λ opened. opened.head ≡ head.now) }
        ensures found { IsOfKind head.now image FileKind.Journal →
            IsOkAnd result (HasFoundLines head.now image (F.calls file)) }
        ensures made { IsOfKind head.now image FileKind.Unmade →
            IfOk result (λ opened. opened ≡ made_lines head.now (F.calls file)) }
        ensures other { IsOfKind head.now image FileKind.Other →
            IsErrOf result OpenRefusal.AnotherJournal }
    {
        let mut file = file;
        let image = ensure_head(alloc, &mut file, image, head)?;
        Ok(OpenedJournal::found(file, image, head))
    }

    /// What is found in a file with this image: the head, and the whole lines behind it.
    #[tactic(auto, using(crate::proofs::KindLemmas::lines_after_head))]
    fn found(file: F, image: Bytes, head: &[u8]) -> OpenedJournal<F>
        requires head { AreTextLines head.now }
        requires begins { HasHead head.now image }
        ensures { HasFoundLines head.now image (F.calls file) result }
    {
        let text_len = text_len(image.as_slice());
        OpenedJournal {
            file,
            image,
            text_len,
            head_len: head.len(),
        }
    }

    /// Lends the lines behind the head.
    pub fn lines(&self) -> &[u8]
        ensures same { result.now ≡ self.now.lines }
        ensures text { AreTextLines self.now.lines }
    {
        &self.image.as_slice()[self.head_len..self.text_len]
    }

    /// Goes on behind the lines. What a crash left of others, and what else is behind them, is cut
    /// off. Without `syncs` a journal outlives the end of its process, but no power cut.
    pub fn begin(self, alloc: Global, syncs: bool) -> Result<FileJournal<F>, OpenRefusal>
        ensures { IfOk result (λ journal.
            IsBegunFile journal (noted self.calls (Cut (found_len self) true)) (found_len self)
            syncs) }
    {
        FileJournal::begin(alloc, self.file, self.text_len as u64, syncs)
    }
}
