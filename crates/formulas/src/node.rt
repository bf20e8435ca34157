// The nodes of a formula sheet.

// A sheet is a slice of nodes numbered from 0. A child is the number of a node before its parent, and no box: sheets are lent, and nothing
// here takes memory.
#[derive(Clone, Copy, PartialEq, Eq, Debug)]
pub enum Node<L> {
    True,
    False,
    Label(L),
    And(u32, u32),
    Or(u32, u32),
    // an action and a child
    Diamond(u8, u32),
    Box(u8, u32),
}
