//! Laws of lists: each is the contract of a function that does nothing.
ghost use Rattle.std.specs.Prelude.{◌≡◌, ℕ, List, map};
ghost use Rattle.std.specs.List.{join_with_byte};
ghost use Rattle.hc_text.specs.declared.list.Item.{Item};
ghost use Rattle.hc_text.specs.Elements.{elements, cut_pieces, ArePieces, Outside, comma};
ghost use Rattle.hc_text.specs.Items.{AreItemsFrom, item_bytes};

/// How a text is cut: its pieces, joined by commas again, are the text, and no other pieces are.
pub fn a_text_has_one_cut(_text: &[u8])
    ensures joined { join_with_byte comma (cut_pieces Outside _text.now) ≡ _text.now }
    ensures pieces { ArePieces Outside (cut_pieces Outside _text.now) }
    ensures only { (pieces : List (List ℕ)) → ArePieces Outside pieces
        → join_with_byte comma pieces ≡ _text.now → pieces ≡ cut_pieces Outside _text.now }
{}

/// What repeated calls of `next_item` give, the first from 0 and each from the `next` of the one
/// before, up to the call that gives None: all elements of the text, in order and each once.
pub fn calls_give_the_elements(_text: &[u8])
    ensures { (items : List Item) → AreItemsFrom _text.now 0 items
        → map (item_bytes _text.now) items ≡ elements _text.now }
{}
