//! Worked rooms: what the definitions say of some small rooms, computed by the checker.

#![tactic(auto)]

ghost use Rattle.worked.specs.Rooms.{WorkedRooms};

/// The worked rooms come out as they should.
pub fn worked_rooms_stand()
    ensures { WorkedRooms }
{}
