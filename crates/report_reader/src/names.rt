//! The names of lines.

ghost use Rattle.std.specs.Prelude.{◌≡◌};
ghost use Rattle.report_reader.specs.Names.{line_name_of, name_among, state_names};

/// The name of a line, by its first word. A timer that is queued nowhere is told by `none`, every
/// other name is spelled as it is called here.
#[derive(Clone, Copy)]
pub enum Name {
    Arm,
    Run,
    Cancel,
    NotQueued,
    Idle,
    Stay,
    Wake,
    Offline,
    Handed,
    Online,
    Control,
    Moved,
    Cover,
    Refused,
    Left,
    End,
    Why,
    Yes,
    No,
    Device,
}

/// The name that a word spells.
#[tactic(auto, unfolding(crate::specs::Names::line_name_of))]
pub fn name_of(word: &[u8]) -> Option<Name>
    ensures { result ≡ line_name_of word.now }
{
    if word == b"arm".as_slice() {
        Some(Name::Arm)
    } else if word == b"run".as_slice() {
        Some(Name::Run)
    } else if word == b"cancel".as_slice() {
        Some(Name::Cancel)
    } else if word == b"none".as_slice() {
        Some(Name::NotQueued)
    } else if word == b"cover".as_slice() {
        Some(Name::Cover)
    } else if word == b"refused".as_slice() {
        Some(Name::Refused)
    } else if word == b"why".as_slice() {
        Some(Name::Why)
    } else if word == b"yes".as_slice() {
        Some(Name::Yes)
    } else if word == b"no".as_slice() {
        Some(Name::No)
    } else if word == b"device".as_slice() {
        Some(Name::Device)
    } else {
        state_named(word)
    }
}

// The name of a line on CPUs that go idle, wake and go offline, or on what is left.
fn state_named(word: &[u8]) -> Option<Name>
    ensures { result ≡ name_among state_names word.now }
{
    if word == b"idle".as_slice() {
        Some(Name::Idle)
    } else if word == b"stay".as_slice() {
        Some(Name::Stay)
    } else if word == b"wake".as_slice() {
        Some(Name::Wake)
    } else if word == b"offline".as_slice() {
        Some(Name::Offline)
    } else if word == b"handed".as_slice() {
        Some(Name::Handed)
    } else if word == b"online".as_slice() {
        Some(Name::Online)
    } else if word == b"control".as_slice() {
        Some(Name::Control)
    } else if word == b"moved".as_slice() {
        Some(Name::Moved)
    } else if word == b"left".as_slice() {
        Some(Name::Left)
    } else if word == b"end".as_slice() {
        Some(Name::End)
    } else {
        None
    }
}
