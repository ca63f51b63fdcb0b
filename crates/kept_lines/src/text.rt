ghost use Rattle.std.specs.Prelude.{◌≡◌, ◌≤◌, length, take};
ghost use Rattle.kept_lines.specs.Text.{AreTextLines, image_text};

/// How many bytes of a file's image are its text.
#[tactic(auto, using(crate::proofs::TextLemmas::first_bytes_are_text))]
pub fn text_len(image: &[u8]) -> usize
    ensures text { take result image.now ≡ image_text image.now }
    ensures lines { AreTextLines (take result image.now) }
    ensures within { result ≤ length image.now }
{
    text_end(image)
}

/// The offset behind the last LF before the first 0, or 0 if there is none.
fn text_end(image: &[u8]) -> usize
    ensures text { take result image.now ≡ image_text image.now }
    ensures within { result ≤ length image.now }
{
    let mut len = 0;
    for (index, byte) in image.iter().enumerate() {
        if *byte == 0 {
            return len;
        }
        if *byte == b'\n' {
            len = index + 1;
        }
    }
    len
}
