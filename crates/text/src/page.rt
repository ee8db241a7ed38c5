// A printed line, and the page that it is written into.
ghost use Rattle.std.specs.Prelude.{◌≡◌, ℕ, ◌≤◌, List, length};
ghost use Rattle.text.specs.Page.{Written, page_least};

use crate::refusal::Refusal;
use arrayvec::ArrayString;

// The least bytes of a page: every line fits.
pub const PAGE_LEAST: usize = 300;

// The text of a line.
pub type Text = ArrayString<PAGE_LEAST>;

// What is printed as one line.
pub trait Line {
    // The bytes of the line, byte 10 at the end.
    ghost bytes: { Self → List ℕ };

    // Writes the line over a text.
    fn spell(&self, text: &mut Text)
        ensures after { text.new.bytes ≡ bytes self.now }
        ensures fits { length text.new.bytes ≤ page_least };
}

// Writes a line into a page, and answers its length.
pub fn write<L: Line>(page: &mut [u8], line: &L) -> Result<usize, Refusal>
    ensures written { Written (L.bytes line.now) page.old page.new result }
{
    if page.len() < PAGE_LEAST {
        return Err(Refusal::ShortPage);
    }
    let mut text = Text::new();
    line.spell(&mut text);
    let bytes = text.as_str().as_bytes();
    page[..bytes.len()].copy_from_slice(bytes);
    Ok(bytes.len())
}
