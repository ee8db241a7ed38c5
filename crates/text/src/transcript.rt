// What is printed, line by line.
ghost use Rattle.std.specs.Prelude.{◌≡◌, ◌+◌, ◌*◌, ◌≤◌, [], length, IfOk, vec_len, vec_capacity};
ghost use Rattle.std.specs.List.{flat_map};
ghost use Rattle.text.specs.Session.{row_places};
ghost use Rattle.text.specs.Answer.{heights, text};
ghost use Rattle.text.specs.Transcript.{Added};
ghost use Rattle.text.specs.Line.{row_line};
ghost use Rattle.text.specs.Page.{page_least};

use crate::answer::Answer;
use crate::fault::Fault;
use crate::page::{Line, Text};
use crate::print::RefusedLine;
use book::Row;
use std::alloc::{AllocError, Global};

// The places for the rows of a close.
pub(crate) const ROW_PLACES: usize = 64;

// What is printed, and the text of the line that is put behind it.
#[derive(Drop)]
pub(crate) struct Transcript {
    pub bytes: Vec<u8>,
    text: Text,
}

impl Transcript {
    // An empty one, with room for so many bytes.
    pub(crate) fn with_room(heap: Global, room: usize) -> Result<Transcript, AllocError>
        ensures bytes { IfOk result (λ made. made.bytes.items ≡ []) }
        ensures room { IfOk result (λ made. vec_capacity made.bytes ≡ room) }
    {
        Ok(Transcript {
            bytes: Vec::with_capacity(heap, room)?,
            text: Text::new(),
        })
    }

    // Puts a line behind what is printed.
    pub(crate) fn print<L: Line>(&mut self, line: &L)
        requires { vec_len self.old.bytes + page_least ≤ vec_capacity self.old.bytes }
        ensures added { Added 1 (L.bytes line.now) self.old.bytes self.new.bytes }
    {
        line.spell(&mut self.text);
        self.bytes
            .extend_from_slice(self.text.as_str().as_bytes())
            .unwrap();
    }

    fn print_rows(&mut self, rows: &[Row])
        requires { vec_len self.old.bytes + length rows.now * page_least ≤ vec_capacity self.old.bytes }
        ensures added { Added (length rows.now) (flat_map row_line rows.now) self.old.bytes self.new.bytes }
    {
        for row in rows {
            self.print(row);
        }
    }

    // What comes of a line.
    pub(crate) fn print_answer(
        &mut self,
        line: usize,
        answer: Result<Answer, Fault>,
        rows: &[Row; ROW_PLACES],
    )
        requires { (heights answer ≤ row_places + 1) × (vec_len self.old.bytes + heights answer * page_least ≤ vec_capacity self.old.bytes) }
        ensures added { Added (heights answer) (text line answer rows.now) self.old.bytes self.new.bytes }
    {
        match answer {
            Ok(Answer::Silent) => {}
            Ok(Answer::Invoice(invoice)) => self.print(&invoice),
            Ok(Answer::Closed { count, period }) => {
                self.print_rows(&rows[..count]);
                self.print(&period);
            }
            Err(fault) => self.print(&RefusedLine { line, fault }),
        }
    }
}
