//! What is true of every layout and of every word.

ghost use Rattle.shared_words.specs.Laws.{WaysBack, WordsApart};

/// Does nothing: its contract says that each word of a layout has an index of its own, below the
/// count and above 0.
pub fn law_words_apart()
    ensures { WordsApart }
{}

/// Does nothing: its contract says that each kind of word tells what it was made of, and that each
/// fits 64 bits.
pub fn law_ways_back()
    ensures { WaysBack }
{}
