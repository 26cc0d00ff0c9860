//! Giving or skipping one context.

ghost use Rattle.std.specs.Prelude.{◌≡◌, ◌<◌, ◌≤◌, ◌++◌, length, min};
ghost use Rattle.rb_source.specs.Form.{form_len, IsForm};
ghost use Rattle.rb_source.specs.Piece.{room_for};
ghost use Rattle.rb_source.specs.inner.Counted.{counted_by, given_by};

use crate::counts::ContextCounts;
use crate::form::Form;
use crate::piece::Piece;

// Gives or skips a context of `total` bytes that begins with `front`, and counts it.
pub(crate) fn emit(
    form: &Form,
    front: &[u8],
    total: u32,
    piece: &mut Piece,
    counts: &mut ContextCounts,
)
    requires lawful { IsForm form.now }
    requires size { piece.old.ctx_len ≡ form_len form.now }
    requires room { length piece.old.contexts < room_for piece.old.ctx_len }
    requires front { min total form.now.len ≤ length front.now }
    ensures given { piece.new ≡ record piece.old { contexts = piece.old.contexts ++ given_by form.now front.now total } }
    ensures counted { counts.new ≡ counted_by form.now counts.old total }
{
    let given = form.fit.is_met(form.len, total);
    counts.add(given, form.fit.cuts(form.len, total));
    if given {
        piece.push_formed(form, front, total);
    }
}
