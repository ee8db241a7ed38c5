// The lines of an input, one after the other.
ghost use Rattle.std.specs.Prelude.{◌≡◌, ◌==◌, length, position};
ghost use Rattle.std.specs.Iterator.{YieldsFirstRef, item_count};
ghost use Rattle.text.specs.Session.{lines};

// Where the first line ends, if a byte 10 ends it.
fn line_end(input: &[u8]) -> Option<usize>
    ensures value { result ≡ position (λ b. b == 10) input.now }
{
    input.iter().position(|b| *b == b'\n')
}

// What is still to come of an input. Byte 10 ends a line, and the last may lack it.
#[derive(Drop)]
pub(crate) struct Lines<'a>(pub &'a [u8]);

impl<'a> Iterator for Lines<'a> {
    type Item = &'a [u8];

    ghost next_gives = { YieldsFirstRef (λ s. lines s.0.now) };

    ghost remaining = { item_count (λ s. lines s.0.now) };

    fn next(&mut self) -> Option<&'a [u8]> {
        let rest = self.0;
        if rest.is_empty() {
            return None;
        }
        match line_end(rest) {
            Some(end) => {
                self.0 = &rest[end + 1..];
                Some(&rest[..end])
            }
            None => {
                self.0 = &[];
                Some(rest)
            }
        }
    }
}

pub(crate) fn line_count(input: &[u8]) -> usize
    ensures value { result ≡ length (lines input.now) }
{
    Lines(input).count()
}
