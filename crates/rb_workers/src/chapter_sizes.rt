//! The room of a ring's chapters (the bounded segments of its history) and how early they are handed out, by the ring's
//! size.

ghost use Rattle.std.specs.Prelude.{◌≡◌};
ghost use Rattle.rb_chapter_ring.specs.Chapters.{IsChapterRoom};
ghost use Rattle.rb_workers.specs.ChapterSizes.{ChaptersFollowTheirRing, handed_out_at as handed_out_at_of, look_after as look_after_of, margin_of, room_of};

// The number of entries that may be logged between two looks, besides those of the records that the ring can have at
// once and of the records after which the keeper looks: three for each record of the batch at whose end the look comes,
// and the remaining ones for refusals.
const BETWEEN_LOOKS: u64 = 32_768;

// The maximal number of entries of a chapter.
const MOST: u64 = 1_048_576;

/// Returns the number of records after which the keeper looks at the chapter of a ring of `size` bytes: a 128th of the
/// size, but at least 4,096 and at most 32,768. Handing out a chapter takes time for each waiting record, so the keeper
/// looks after a number of records that is a fraction of those that can wait.
pub(crate) fn look_after(size: u64) -> u32
    ensures exact { result ≡ look_after_of size }
{
    (size / 128).max(4_096).min(32_768) as u32
}

// Returns the number of entries, together with those that it owes, at which a chapter of a ring of `size` bytes is handed
// out: an eighth of the size, but at least 8,192 and at most 32,768. So a small ring's chapters use little memory.
fn handed_out_at(size: u64) -> u32
    ensures exact { result ≡ handed_out_at_of size }
{
    (size / 8).max(8_192).min(32_768) as u32
}

/// Returns the number of entries that a chapter of a ring of `size` bytes has room for.
///
/// There are three for each record that the ring could have at once if all records were empty, three for each record
/// after which the keeper looks, 32,768 for other entries between two looks, and those at which the chapter is handed
/// out, up to 1,048,576 in total. An entry needs memory in each of two chapters, but only once it is written.
pub fn chapter_room(size: u64) -> u32
    ensures room { result ≡ room_of size }
    ensures within { IsChapterRoom result }
{
    let waiting = size / 8 * 3 + u64::from(look_after(size)) * 3;
    let whole = waiting + BETWEEN_LOOKS + u64::from(handed_out_at(size));
    whole.min(MOST) as u32
}

/// Returns how many entries early the chapters of a ring of `size` bytes are handed out: the whole room except as many
/// entries as an eighth of the size, but at least 8,192 and at most 32,768. So a chapter usually has a few more entries
/// than these.
pub fn chapter_margin(size: u64) -> u32
    ensures margin { result ≡ margin_of size }
{
    chapter_room(size) - handed_out_at(size)
}

/// The law that, with this room and margin, no reservation and no output of a ring of up to 2 MiB finds the chapter
/// full before the ring was full. It holds if, since the keeper's last look, at most as many records were taken as
/// pace.rt allows and at most 31,232 refusals were logged (see rb_consumer's `chapters_are_full_after_their_ring`). For
/// larger rings it requires longer records.
///
/// The function does nothing; its contract is the law.
pub fn chapters_follow_their_ring()
    ensures law { ChaptersFollowTheirRing }
{}
