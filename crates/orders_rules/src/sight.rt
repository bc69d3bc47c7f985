//! What a walk's step may see.

/// What a rule may look at besides the walk itself: the word of the walk's group, and where the
/// walk stands in the tree.
#[derive(Clone, Copy)]
pub struct Sight {
    /// The set of the group's active children: bit k stands for child k.
    pub active: u8,
    /// The number of the child that is the group's migrator.
    pub migrator: Option<u8>,
    /// The number of the child through which the path of the walk's CPU comes into the group.
    pub side: u8,
    /// Whether no other child of the group is active.
    pub is_last: bool,
    /// Whether the group is the top.
    pub is_top: bool,
    /// Whether the child is active; the CPU of a walk that looks is not.
    pub child_on: bool,
}
