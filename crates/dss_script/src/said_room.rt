// How much room the commands take that a script says.
ghost use Rattle.dss_script.specs.SaidRoom.{SaidRoomLaw};

/// A law: the commands that a script says take no more room than the 1,048,576 bytes that a script may have, with a line
/// feed behind the last. Does nothing.
pub fn said_room_law()
    ensures { SaidRoomLaw }
{}
