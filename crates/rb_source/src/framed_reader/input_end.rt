//! The end of a reader's input.

ghost use Rattle.std.specs.Prelude.{◌≡◌, ◌<◌, ◌+◌, [], None, Some, IfErr, length, true, false};
ghost use Rattle.std.specs.Io.KnownBytes.{IsAtEnd};
ghost use Rattle.rb_source.specs.Form.{form_len, saturated};
ghost use Rattle.rb_source.specs.Framing.{IsPartial};
ghost use Rattle.rb_source.specs.Piece.{room_for};
ghost use Rattle.rb_source.specs.Given.{HasGiven, OnEnd};
ghost use Rattle.rb_source.specs.Stream.{FailsAs, IsOver};
ghost use Rattle.rb_source.specs.declared.long.Long.TheVariants.{Line};
ghost use Rattle.rb_source.specs.inner.Steps.{Appends, IsPartialSource};

use crate::delivery::emit;
use crate::framed_reader::FramedReader;
use crate::framing::Framing;
use crate::long::Long;
use crate::piece::Piece;
use crate::source::{Filled, SourceFault};
use std::io::Read;

impl<R: Read> FramedReader<R> {
    // Returns the number of contexts that arrived completely.
    pub(crate) fn arrived(&self) -> u64
        ensures value { result ≡ saturated (self.now.counts.given + self.now.counts.skipped) }
    {
        self.counts.given.saturating_add(self.counts.skipped)
    }

    // Handles the end of the input if no long context has begun. The last line may lack its line feed.
    pub(crate) fn end_short(&mut self, piece: &mut Piece) -> Result<Filled, SourceFault>
        requires open { self.old.over ≡ false }
        requires short { self.old.long ≡ None }
        requires partial { IsPartial self.old.framing self.old.form.len self.old.rest }
        requires end { IsAtEnd (R.remaining self.old.reader) }
        requires empty { piece.old.contexts ≡ [] }
        requires size { piece.old.ctx_len ≡ form_len self.old.form }
        ensures gave { Appends R.remaining self.old self.new piece.old piece.new }
        ensures count { HasGiven piece.new.contexts result }
        ensures end { OnEnd result (self.new.over ≡ true) }
        ensures over { self.new.over ≡ true → IsOver R.remaining self.new }
        ensures fault { IfErr result (FailsAs R.remaining self.new) }
    {
        if self.window.bytes().is_empty() {
            self.over = true;
            return Ok(Filled::End);
        }
        match self.framing {
            Framing::Lines => {
                let line = self.window.bytes();
                emit(&self.form, line, line.len() as u32, piece, &mut self.counts);
                self.window.clear();
                self.over = true;
                if piece.is_empty() {
                    return Ok(Filled::End);
                }
                Ok(Filled::More)
            }
            Framing::Frames | Framing::Fixed => Err(SourceFault::EndsInside(self.arrived())),
        }
    }

    // Handles the end of the input in a long line, which ends with it.
    pub(crate) fn end_line(&mut self, total: u32, piece: &mut Piece) -> Result<Filled, SourceFault>
        requires open { self.old.over ≡ false }
        requires long { self.old.long ≡ Some (Line total) }
        requires rest { self.old.rest ≡ [] }
        requires end { IsAtEnd (R.remaining self.old.reader) }
        requires empty { piece.old.contexts ≡ [] }
        requires size { piece.old.ctx_len ≡ form_len self.old.form }
        requires room { length piece.old.contexts < room_for piece.old.ctx_len }
        ensures gave { Appends R.remaining self.old self.new piece.old piece.new }
        ensures count { HasGiven piece.new.contexts result }
        ensures end { OnEnd result (self.new.over ≡ true) }
        ensures over { self.new.over ≡ true → IsOver R.remaining self.new }
        ensures fault { IfErr result (FailsAs R.remaining self.new) }
    {
        self.finish_long(total, piece);
        self.over = true;
        if piece.is_empty() {
            return Ok(Filled::End);
        }
        Ok(Filled::More)
    }

    // Handles the end of the input.
    pub(crate) fn end(&mut self, piece: &mut Piece) -> Result<Filled, SourceFault>
        requires open { self.old.over ≡ false }
        requires partial { IsPartialSource self.old }
        requires end { IsAtEnd (R.remaining self.old.reader) }
        requires empty { piece.old.contexts ≡ [] }
        requires size { piece.old.ctx_len ≡ form_len self.old.form }
        ensures gave { Appends R.remaining self.old self.new piece.old piece.new }
        ensures count { HasGiven piece.new.contexts result }
        ensures end { OnEnd result (self.new.over ≡ true) }
        ensures over { self.new.over ≡ true → IsOver R.remaining self.new }
        ensures fault { IfErr result (FailsAs R.remaining self.new) }
    {
        match self.long {
            None => self.end_short(piece),
            Some(Long::Frame { .. }) => Err(SourceFault::EndsInside(self.arrived())),
            Some(Long::Line { total }) => self.end_line(total, piece),
        }
    }
}
