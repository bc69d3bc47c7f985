//! The words of a table that is closed.

ghost use Rattle.std.specs.Prelude.{◌≡◌, List};
ghost use Rattle.shared_words.specs.Layout.{IsWordOf, count_of};
ghost use Rattle.shared_rule.specs.declared.parts.BoxView.{BoxView};
ghost use Rattle.shared_rule.specs.declared.parts.PassView.{PassView};
ghost use Rattle.shared_rule.specs.Rule.{seen};
ghost use Rattle.shared_rule.specs.Starts.{EndsAs, HasAll};
ghost use Rattle.shared_table.specs.Endings.{word_in};

use atomic_table::Closed;
use shared_rule::{Said, Seat, Words, law_ends};
use shared_words::{Layout, SharedWord, law_words_apart};
use std::alloc::Global;
use std::marker::Model;
use wheel_core::TimerBase;

/// The words of a table that no thread shares any more, and where each of them stands.
pub struct LastWords {
    closed: Closed<Said, Global>,
    layout: Layout,
}

impl Model for LastWords {
    ghost use Rattle.std.specs.Prelude.{◌≡◌};
    ghost use Rattle.std.specs.Slots.{IsFull, slots_items, slots_len};
    ghost use Rattle.shared_words.specs.Layout.{count_of};
    ghost use Rattle.shared_table.specs.Endings.{HeldWords};

    ghost Value = { HeldWords };

    ghost view = { λ h. record { layout = h.layout; words = slots_items h.closed.words } };

    ghost invariant = { λ h. IsFull h.closed.words
        × (slots_len h.closed.words ≡ count_of h.layout)
        × (slots_len h.closed.slots ≡ 0) };
}

impl LastWords {
    /// Closes the table of a run, whose words stand as the layout says. With a seat that has all
    /// parts, no walk and nobody inside an interrupt, the words are those of a core at rest.
    pub fn close<B: TimerBase>(table: Words<B>, seat: Seat, layout: Layout) -> LastWords
        requires seat { seat.table_id ≡ table.shared.table_id }
        requires count { table.shared.table_id.words ≡ count_of layout }
        requires slots { table.shared.table_id.slots ≡ 0 }
        ensures layout { result.layout ≡ layout }
        ensures ends { (boxes : List BoxView) (passes : List PassView)
            → HasAll table.shared.key.core boxes passes → seat.me.0 ≡ seen boxes passes
            → EndsAs table.shared.key.core result.words boxes passes }
    {
        law_ends();
        LastWords {
            closed: table.close_with(seat),
            layout,
        }
    }

    /// Where each word stands.
    pub fn layout(&self) -> Layout
        ensures { result ≡ self.now.layout }
    {
        self.layout
    }

    /// One of the words.
    pub fn get(&self, word: SharedWord) -> u64
        requires { IsWordOf self.now.layout word }
        ensures { result ≡ word_in self.now word }
    {
        law_words_apart();
        self.closed.word(self.layout.index(word))
    }

    /// Gives the memory of the words back.
    pub fn free(self) {
        let LastWords { closed, layout: _ } = self;
        closed.free();
    }
}
