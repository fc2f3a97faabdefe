// A panel has one mark for each of its nodes, inside its frame; and strips stand apart inside the page.
ghost use Rattle.fd_picture.specs.Laws.{FrameLaw, MarksLaw};

/// A law: a panel has as many marks as nodes, its k-th mark is that of its k-th node, from the level of the node's high
/// down to that of its low and at least one unit high, and the text of the marks is that of each node with its place.
/// Does nothing.
#[tactic(auto, using(crate::proofs::Marking::marks_law_holds))]
pub fn marks_law()
    ensures { MarksLaw }
{}

/// A law: what is drawn of a panel are its nodes in order, in strips of at most 42. On the page of a report both ends of
/// a node's interval stand within the axis, and its mark inside its strip's frame, where the node's low isn't above its
/// high, as in each report that is read; the frame stands inside its strip, no two strips overlap, and all stand inside
/// the page, above its table. Does nothing.
#[tactic(auto, using(crate::proofs::Framing::frame_law_holds))]
pub fn frame_law()
    ensures { FrameLaw }
{}
