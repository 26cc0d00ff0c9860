//! The law of reading a tape, as a whole or in pieces.

ghost use Rattle.std.specs.Prelude.{◌≡◌, ℕ, ◌+◌, List, [], ◌∷◌, ◌++◌};
ghost use Rattle.rb_history.specs.TapeBytes.{Item, item_span};
ghost use Rattle.rb_history.specs.RingModel.{IsRingSize};
ghost use Rattle.rb_tape.specs.declared.fault.TapeKind.{TapeKind};
ghost use Rattle.rb_tape.specs.TapeFront.{StartsWithItem, ShowsFault};
ghost use Rattle.rb_tape.specs.LongestTape.{HasReadItems, HasNoItemNext, IsLongestList};

/// States what holds of reading any input, cut into pieces at any places. Initially nothing was read. A piece extends
/// the input and the unread rest. Each record that is returned is one more item. When no item is next, the items are
/// the longest list whose tape is a prefix of the input. Bytes that begin with an item show no fault, and the first
/// fault of any bytes is unique.
///
/// The function does nothing; its contract is the law.
pub fn reading_gives_the_longest_list()
    ensures begins { (size start : ℕ) (input : List ℕ) → HasReadItems size start input [] start input }
    ensures piece { (size start : ℕ) (input : List ℕ) (items : List Item) (position : ℕ) (rest piece : List ℕ) →
        HasReadItems size start input items position rest → HasReadItems size start (input ++ piece) items position (rest ++ piece) }
    ensures item { (size start : ℕ) (input : List ℕ) (items : List Item) (position : ℕ) (rest : List ℕ) (item : Item) (after : List ℕ) →
        HasReadItems size start input items position rest → StartsWithItem size position rest item after →
        HasReadItems size start input (items ++ item ∷ []) (position + item_span item) after }
    ensures longest { (size start : ℕ) (input : List ℕ) (items : List Item) (position : ℕ) (rest : List ℕ) → IsRingSize size →
        HasReadItems size start input items position rest → HasNoItemNext size position rest → IsLongestList size start input items }
    ensures no_item_at_fault { (size position : ℕ) (bytes : List ℕ) (kind : TapeKind) (item : Item) (rest : List ℕ) → IsRingSize size →
        ShowsFault size position bytes kind → ¬ StartsWithItem size position bytes item rest }
    ensures one_fault { (size position : ℕ) (bytes : List ℕ) (kind other : TapeKind) →
        ShowsFault size position bytes kind → ShowsFault size position bytes other → kind ≡ other }
{}
