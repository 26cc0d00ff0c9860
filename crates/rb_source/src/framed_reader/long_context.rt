//! Contexts that do not fit into the window: their bytes are discarded, and they are given by their first bytes or
//! skipped.

ghost use Rattle.std.specs.Prelude.{◌≡◌, ◌≤◌, ◌<◌, ◌+◌, ◌++◌, [], None, Some, length, true, false};
ghost use Rattle.rb_source.specs.declared.framing.Framing.TheVariants.{Frames, Lines};
ghost use Rattle.rb_source.specs.Form.{form_len};
ghost use Rattle.rb_source.specs.Framing.{IsPartial};
ghost use Rattle.rb_source.specs.Piece.{room_for};
ghost use Rattle.rb_source.specs.declared.long.Long.TheVariants.{Frame, Line};
ghost use Rattle.rb_source.specs.inner.Counted.{counted_by, given_by};
ghost use Rattle.rb_source.specs.inner.Steps.{Appends, GivesNone, IsPartialSource, OnPass};

use crate::delivery::emit;
use crate::framed_reader::FramedReader;
use crate::framing::Framing;
use crate::long::Long;
use crate::piece::Piece;
use crate::portion_parser::{find_line_feed, frame_length};
use std::io::Read;

// Replaces the kept bytes with these.
fn keep(kept: &mut Vec<u8>, front: &[u8])
    requires { length front.now ≡ length kept.old.items }
    ensures { kept.new.items ≡ front.now }
{
    kept.as_mut_slice().copy_from_slice(front);
}

impl<R: Read> FramedReader<R> {
    // Gives or skips the long context, of which `total` bytes arrived.
    pub(crate) fn finish_long(&mut self, total: u32, piece: &mut Piece)
        requires size { piece.old.ctx_len ≡ form_len self.old.form }
        requires room { length piece.old.contexts < room_for piece.old.ctx_len }
        ensures given { piece.new ≡ record piece.old { contexts = piece.old.contexts ++ given_by self.old.form self.old.kept total } }
        ensures finished { self.new ≡ record self.old { long = None; counts = counted_by self.old.form self.old.counts total } }
    {
        emit(&self.form, &self.kept, total, piece, &mut self.counts);
        self.long = None;
    }

    // Discards the bytes of a long frame that have arrived. Returns whether the frame is complete.
    pub(crate) fn pass_frame(&mut self, total: u32, missing: u32, piece: &mut Piece) -> bool
        requires open { self.old.over ≡ false }
        requires long { self.old.long ≡ Some (Frame total missing) }
        requires size { piece.old.ctx_len ≡ form_len self.old.form }
        requires room { length piece.old.contexts < room_for piece.old.ctx_len }
        ensures gave { Appends R.remaining self.old self.new piece.old piece.new }
        ensures passed { OnPass result self.old self.new piece.old piece.new }
    {
        let count = self.window.bytes().len().min(missing as usize);
        self.window.drop_front(count);
        let missing = missing - count as u32;
        if missing > 0 {
            self.long = Some(Long::Frame { total, missing });
            return false;
        }
        self.finish_long(total, piece);
        true
    }

    // Discards the bytes of a long line that have arrived. Returns whether the line is complete.
    pub(crate) fn pass_line(&mut self, total: u32, piece: &mut Piece) -> bool
        requires open { self.old.over ≡ false }
        requires long { self.old.long ≡ Some (Line total) }
        requires size { piece.old.ctx_len ≡ form_len self.old.form }
        requires room { length piece.old.contexts < room_for piece.old.ctx_len }
        ensures gave { Appends R.remaining self.old self.new piece.old piece.new }
        ensures passed { OnPass result self.old self.new piece.old piece.new }
    {
        let bytes = self.window.bytes();
        let came = bytes.len() as u32;
        match find_line_feed(bytes) {
            Some(place) => {
                self.window.drop_front(place + 1);
                self.finish_long(total.saturating_add(place as u32), piece);
                true
            }
            None => {
                self.window.clear();
                self.long = Some(Long::Line {
                    total: total.saturating_add(came),
                });
                false
            }
        }
    }

    // Starts to discard a frame, because the window is full and holds no whole frame.
    pub(crate) fn begin_frame(&mut self)
        requires frames { self.old.framing ≡ Frames }
        requires open { self.old.over ≡ false }
        requires short { self.old.long ≡ None }
        requires partial { IsPartial self.old.framing self.old.form.len self.old.rest }
        requires full { length self.old.rest ≡ 131072 }
        ensures gave { GivesNone R.remaining self.old self.new }
        ensures open { self.new.over ≡ false }
        ensures partial { IsPartialSource self.new }
        ensures empty { self.new.rest ≡ [] }
    {
        let bytes = self.window.bytes();
        let total = frame_length(bytes);
        let missing = total - (bytes.len() - 4) as u32;
        keep(&mut self.kept, &bytes[4..4 + self.form.len as usize]);
        self.window.clear();
        self.long = Some(Long::Frame { total, missing });
    }

    // Starts to discard a line, because the window is full and holds no whole line.
    pub(crate) fn begin_line(&mut self)
        requires lines { self.old.framing ≡ Lines }
        requires open { self.old.over ≡ false }
        requires short { self.old.long ≡ None }
        requires partial { IsPartial self.old.framing self.old.form.len self.old.rest }
        requires full { length self.old.rest ≡ 131072 }
        ensures gave { GivesNone R.remaining self.old self.new }
        ensures open { self.new.over ≡ false }
        ensures partial { IsPartialSource self.new }
        ensures empty { self.new.rest ≡ [] }
    {
        let bytes = self.window.bytes();
        let total = bytes.len() as u32;
        keep(&mut self.kept, &bytes[..self.form.len as usize]);
        self.window.clear();
        self.long = Some(Long::Line { total });
    }

    // Starts to discard a context, because the window is full and holds no whole context.
    pub(crate) fn begin_long(&mut self)
        requires open { self.old.over ≡ false }
        requires short { self.old.long ≡ None }
        requires partial { IsPartial self.old.framing self.old.form.len self.old.rest }
        requires full { length self.old.rest ≡ 131072 }
        ensures gave { GivesNone R.remaining self.old self.new }
        ensures open { self.new.over ≡ false }
        ensures partial { IsPartialSource self.new }
        ensures empty { self.new.rest ≡ [] }
    {
        match self.framing {
            Framing::Frames => self.begin_frame(),
            Framing::Lines => self.begin_line(),
            Framing::Fixed => unreachable!(),
        }
    }
}
