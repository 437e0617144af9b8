// Each rule of a node at least once.
use crate::script::{Does, Few, Says, Sent, State, Step, Tells, Wrote};
use raft_types::state::Role;

/// Each rule at least once.
pub static RULES: [Step; 60] = [
    // The opening raises a node of a lower term, and no other.
    Step(
        Does::Raise(2, 1),
        Tells::Acts(Few::One(Wrote::Vote(1, 0)), Few::None, Role::Follower, 0),
    ),
    Step(
        Does::Raise(2, 1),
        Tells::Acts(Few::None, Few::None, Role::Follower, 0),
    ),
    // Node 1 stands, and has its votes from node 2; one vote a term.
    Step(
        Does::Timeout(1),
        Tells::Acts(
            Few::One(Wrote::Vote(1, 1)),
            Few::Two(
                Sent(1, 2, Says::Vote(1, 0, 0)),
                Sent(1, 3, Says::Vote(1, 0, 0)),
            ),
            Role::Candidate,
            0,
        ),
    ),
    Step(
        Does::Hears(1, 2, Says::Vote(1, 0, 0), 0, 0),
        Tells::Acts(
            Few::One(Wrote::Vote(1, 1)),
            Few::One(Sent(2, 1, Says::VoteReply(1, true))),
            Role::Follower,
            0,
        ),
    ),
    Step(
        Does::Hears(3, 2, Says::Vote(1, 0, 0), 0, 0),
        Tells::Acts(
            Few::None,
            Few::One(Sent(2, 3, Says::VoteReply(1, false))),
            Role::Follower,
            0,
        ),
    ),
    Step(
        Does::Hears(1, 2, Says::Vote(1, 0, 0), 0, 0),
        Tells::Acts(
            Few::None,
            Few::One(Sent(2, 1, Says::VoteReply(1, true))),
            Role::Follower,
            0,
        ),
    ),
    Step(
        Does::Hears(1, 2, Says::Vote(0, 0, 0), 0, 0),
        Tells::Acts(
            Few::None,
            Few::One(Sent(2, 1, Says::VoteReply(1, false))),
            Role::Follower,
            0,
        ),
    ),
    Step(
        Does::Hears(3, 1, Says::VoteReply(1, false), 0, 0),
        Tells::Acts(Few::None, Few::None, Role::Candidate, 0),
    ),
    Step(
        Does::Hears(2, 1, Says::VoteReply(1, true), 0, 0),
        Tells::Acts(
            Few::None,
            Few::Two(
                Sent(1, 2, Says::Append(1, 0, 0, Few::None, 0)),
                Sent(1, 3, Says::Append(1, 0, 0, Few::None, 0)),
            ),
            Role::Leader,
            0,
        ),
    ),
    Step(
        Does::Hears(2, 1, Says::VoteReply(1, true), 0, 0),
        Tells::Acts(Few::None, Few::None, Role::Leader, 0),
    ),
    // A leader does nothing at a timeout; commands, fires and beats are its own.
    Step(
        Does::Timeout(1),
        Tells::Acts(Few::None, Few::None, Role::Leader, 0),
    ),
    Step(
        Does::Command(1, 10),
        Tells::Acts(
            Few::One(Wrote::Entry(1, 1, 10)),
            Few::Two(
                Sent(1, 2, Says::Append(1, 0, 0, Few::One((1, 10)), 0)),
                Sent(1, 3, Says::Append(1, 0, 0, Few::One((1, 10)), 0)),
            ),
            Role::Leader,
            0,
        ),
    ),
    Step(
        Does::Fire(1, 11),
        Tells::Acts(
            Few::One(Wrote::Entry(2, 1, 11)),
            Few::Two(
                Sent(1, 2, Says::Append(1, 0, 0, Few::Two((1, 10), (1, 11)), 0)),
                Sent(1, 3, Says::Append(1, 0, 0, Few::Two((1, 10), (1, 11)), 0)),
            ),
            Role::Leader,
            0,
        ),
    ),
    Step(
        Does::Beat(1),
        Tells::Acts(
            Few::None,
            Few::Two(
                Sent(1, 2, Says::Append(1, 0, 0, Few::Two((1, 10), (1, 11)), 0)),
                Sent(1, 3, Says::Append(1, 0, 0, Few::Two((1, 10), (1, 11)), 0)),
            ),
            Role::Leader,
            0,
        ),
    ),
    // Node 2 takes entries and passes over those that it has; it refuses what it cannot join, with a hint, and a lower term.
    Step(
        Does::Hears(1, 2, Says::Append(1, 0, 0, Few::One((1, 10)), 0), 0, 0),
        Tells::Acts(
            Few::One(Wrote::Entry(1, 1, 10)),
            Few::One(Sent(2, 1, Says::AppendReply(1, true, 1))),
            Role::Follower,
            0,
        ),
    ),
    Step(
        Does::Hears(
            1,
            2,
            Says::Append(1, 0, 0, Few::Two((1, 10), (1, 11)), 1),
            0,
            0,
        ),
        Tells::Acts(
            Few::One(Wrote::Entry(2, 1, 11)),
            Few::One(Sent(2, 1, Says::AppendReply(1, true, 2))),
            Role::Follower,
            1,
        ),
    ),
    Step(
        Does::Hears(1, 2, Says::Append(1, 0, 0, Few::One((1, 10)), 1), 0, 0),
        Tells::Acts(
            Few::None,
            Few::One(Sent(2, 1, Says::AppendReply(1, true, 1))),
            Role::Follower,
            1,
        ),
    ),
    Step(
        Does::Hears(1, 2, Says::Append(1, 5, 1, Few::None, 1), 0, 0),
        Tells::Acts(
            Few::None,
            Few::One(Sent(2, 1, Says::AppendReply(1, false, 2))),
            Role::Follower,
            1,
        ),
    ),
    Step(
        Does::Hears(1, 2, Says::Append(1, 2, 7, Few::None, 1), 0, 0),
        Tells::Acts(
            Few::None,
            Few::One(Sent(2, 1, Says::AppendReply(1, false, 1))),
            Role::Follower,
            1,
        ),
    ),
    Step(
        Does::Hears(1, 2, Says::Append(0, 0, 0, Few::None, 0), 0, 0),
        Tells::Acts(
            Few::None,
            Few::One(Sent(2, 1, Says::AppendReply(1, false, 0))),
            Role::Follower,
            1,
        ),
    ),
    // Replies: the leader commits, sends what follows, or steps back, never below what is shared.
    Step(
        Does::Hears(2, 1, Says::AppendReply(1, true, 1), 0, 0),
        Tells::Acts(
            Few::None,
            Few::Two(
                Sent(1, 2, Says::Append(1, 1, 1, Few::One((1, 11)), 1)),
                Sent(1, 3, Says::Append(1, 0, 0, Few::Two((1, 10), (1, 11)), 1)),
            ),
            Role::Leader,
            1,
        ),
    ),
    Step(
        Does::Hears(2, 1, Says::AppendReply(1, true, 1), 0, 0),
        Tells::Acts(Few::None, Few::None, Role::Leader, 1),
    ),
    Step(
        Does::Hears(2, 1, Says::AppendReply(1, true, 2), 0, 0),
        Tells::Acts(
            Few::None,
            Few::Two(
                Sent(1, 2, Says::Append(1, 2, 1, Few::None, 2)),
                Sent(1, 3, Says::Append(1, 0, 0, Few::Two((1, 10), (1, 11)), 2)),
            ),
            Role::Leader,
            2,
        ),
    ),
    Step(
        Does::Hears(3, 1, Says::AppendReply(1, false, 0), 0, 0),
        Tells::Acts(Few::None, Few::None, Role::Leader, 2),
    ),
    Step(
        Does::Hears(2, 1, Says::AppendReply(1, false, 0), 0, 0),
        Tells::Acts(
            Few::None,
            Few::One(Sent(1, 2, Says::Append(1, 2, 1, Few::None, 2))),
            Role::Leader,
            2,
        ),
    ),
    Step(
        Does::Hears(3, 1, Says::AppendReply(1, false, 9), 0, 0),
        Tells::Acts(Few::None, Few::None, Role::Leader, 2),
    ),
    Step(
        Does::Hears(3, 1, Says::AppendReply(0, true, 2), 0, 0),
        Tells::Acts(Few::None, Few::None, Role::Leader, 2),
    ),
    // A later leader cuts the log of node 2 above its commit; a vote goes to no log behind it.
    Step(
        Does::Hears(
            3,
            2,
            Says::Append(2, 1, 1, Few::Two((2, 20), (2, 21)), 1),
            0,
            0,
        ),
        Tells::Acts(
            Few::Three(
                Wrote::Vote(2, 0),
                Wrote::Entry(2, 2, 20),
                Wrote::Entry(3, 2, 21),
            ),
            Few::One(Sent(2, 3, Says::AppendReply(2, true, 3))),
            Role::Follower,
            1,
        ),
    ),
    Step(
        Does::Show(2),
        Tells::State(
            State(2, 0, Role::Follower, 3, 1),
            (0, 0),
            Few::Three((1, 10), (2, 20), (2, 21)),
        ),
    ),
    Step(
        Does::Hears(3, 2, Says::Vote(3, 9, 1), 0, 0),
        Tells::Acts(
            Few::One(Wrote::Vote(3, 0)),
            Few::One(Sent(2, 3, Says::VoteReply(3, false))),
            Role::Follower,
            1,
        ),
    ),
    Step(
        Does::Hears(3, 2, Says::Vote(3, 3, 2), 0, 0),
        Tells::Acts(
            Few::One(Wrote::Vote(3, 3)),
            Few::One(Sent(2, 3, Says::VoteReply(3, true))),
            Role::Follower,
            1,
        ),
    ),
    // A candidate follows the leader of its term.
    Step(
        Does::Timeout(2),
        Tells::Acts(
            Few::One(Wrote::Vote(4, 2)),
            Few::Two(
                Sent(2, 1, Says::Vote(4, 3, 2)),
                Sent(2, 3, Says::Vote(4, 3, 2)),
            ),
            Role::Candidate,
            1,
        ),
    ),
    Step(
        Does::Hears(3, 2, Says::Append(4, 3, 2, Few::None, 3), 0, 0),
        Tells::Acts(
            Few::None,
            Few::One(Sent(2, 3, Says::AppendReply(4, true, 3))),
            Role::Follower,
            3,
        ),
    ),
    Step(
        Does::Show(2),
        Tells::State(
            State(4, 2, Role::Follower, 3, 3),
            (0, 0),
            Few::Three((1, 10), (2, 20), (2, 21)),
        ),
    ),
    // Chunks: of a lower term, of what is applied, a part, and all; the entries behind stay only where the log has the entry there.
    Step(
        Does::Hears(3, 2, Says::Chunk(3, 9, 2, 0, 100), 3, 0),
        Tells::Acts(
            Few::None,
            Few::One(Sent(2, 3, Says::ChunkReply(4, 0, 0))),
            Role::Follower,
            3,
        ),
    ),
    Step(
        Does::Hears(3, 2, Says::Chunk(4, 3, 2, 0, 100), 3, 0),
        Tells::Acts(
            Few::None,
            Few::One(Sent(2, 3, Says::ChunkReply(4, 3, 100))),
            Role::Follower,
            3,
        ),
    ),
    Step(
        Does::Hears(3, 2, Says::Chunk(4, 5, 4, 0, 100), 3, 40),
        Tells::Acts(
            Few::None,
            Few::One(Sent(2, 3, Says::ChunkReply(4, 5, 40))),
            Role::Follower,
            3,
        ),
    ),
    Step(
        Does::Hears(3, 2, Says::Chunk(4, 3, 2, 0, 90), 2, 90),
        Tells::Acts(
            Few::Two(Wrote::Snap(3, 2), Wrote::Vote(4, 2)),
            Few::One(Sent(2, 3, Says::ChunkReply(4, 3, 90))),
            Role::Follower,
            3,
        ),
    ),
    Step(
        Does::Show(2),
        Tells::State(State(4, 2, Role::Follower, 3, 3), (3, 2), Few::None),
    ),
    Step(
        Does::Hears(
            3,
            2,
            Says::Append(4, 3, 2, Few::Two((4, 40), (4, 41)), 3),
            0,
            0,
        ),
        Tells::Acts(
            Few::Two(Wrote::Entry(4, 4, 40), Wrote::Entry(5, 4, 41)),
            Few::One(Sent(2, 3, Says::AppendReply(4, true, 5))),
            Role::Follower,
            3,
        ),
    ),
    Step(
        Does::Hears(3, 2, Says::Chunk(4, 4, 4, 0, 110), 3, 110),
        Tells::Acts(
            Few::Three(Wrote::Snap(4, 4), Wrote::Vote(4, 2), Wrote::Entry(5, 4, 41)),
            Few::One(Sent(2, 3, Says::ChunkReply(4, 4, 110))),
            Role::Follower,
            4,
        ),
    ),
    Step(
        Does::Show(2),
        Tells::State(State(4, 2, Role::Follower, 3, 4), (4, 4), Few::One((4, 41))),
    ),
    Step(
        Does::Hears(3, 2, Says::Chunk(4, 9, 4, 0, 120), 4, 120),
        Tells::Acts(
            Few::Two(Wrote::Snap(9, 4), Wrote::Vote(4, 2)),
            Few::One(Sent(2, 3, Says::ChunkReply(4, 9, 120))),
            Role::Follower,
            9,
        ),
    ),
    Step(
        Does::Show(2),
        Tells::State(State(4, 2, Role::Follower, 3, 9), (9, 4), Few::None),
    ),
    // A node whose next entry is in the snapshot of the leader is sent that, piece by piece.
    Step(Does::Compact(1, 2, 70000), Tells::Nothing),
    Step(
        Does::Hears(3, 1, Says::AppendReply(1, false, 0), 0, 0),
        Tells::Acts(Few::None, Few::None, Role::Leader, 2),
    ),
    Step(
        Does::Hears(3, 1, Says::ChunkReply(1, 2, 65536), 0, 0),
        Tells::Acts(
            Few::None,
            Few::One(Sent(1, 3, Says::Chunk(1, 2, 1, 65536, 70000))),
            Role::Leader,
            2,
        ),
    ),
    Step(
        Does::Hears(3, 1, Says::ChunkReply(1, 1, 0), 0, 0),
        Tells::Acts(Few::None, Few::None, Role::Leader, 2),
    ),
    Step(
        Does::Hears(3, 1, Says::ChunkReply(1, 2, 70000), 0, 0),
        Tells::Acts(Few::None, Few::None, Role::Leader, 2),
    ),
    Step(
        Does::Show(1),
        Tells::State(State(1, 1, Role::Leader, 0, 2), (2, 1), Few::None),
    ),
    // A greater term ends the lead, and replies of it change nothing.
    Step(
        Does::Command(1, 12),
        Tells::Acts(
            Few::One(Wrote::Entry(3, 1, 12)),
            Few::Two(
                Sent(1, 2, Says::Append(1, 2, 1, Few::One((1, 12)), 2)),
                Sent(1, 3, Says::Append(1, 2, 1, Few::One((1, 12)), 2)),
            ),
            Role::Leader,
            2,
        ),
    ),
    Step(
        Does::Hears(3, 1, Says::VoteReply(5, false), 0, 0),
        Tells::Acts(Few::One(Wrote::Vote(5, 0)), Few::None, Role::Follower, 2),
    ),
    Step(
        Does::Show(1),
        Tells::State(State(5, 0, Role::Follower, 0, 2), (2, 1), Few::One((1, 12))),
    ),
    Step(
        Does::Hears(2, 1, Says::AppendReply(5, true, 3), 0, 0),
        Tells::Acts(Few::None, Few::None, Role::Follower, 2),
    ),
    Step(
        Does::Hears(2, 1, Says::ChunkReply(5, 2, 0), 0, 0),
        Tells::Acts(Few::None, Few::None, Role::Follower, 2),
    ),
    // Elected again, node 1 appends a noop, and an older entry is committed with it alone.
    Step(
        Does::Timeout(1),
        Tells::Acts(
            Few::One(Wrote::Vote(6, 1)),
            Few::Two(
                Sent(1, 2, Says::Vote(6, 3, 1)),
                Sent(1, 3, Says::Vote(6, 3, 1)),
            ),
            Role::Candidate,
            2,
        ),
    ),
    Step(
        Does::Hears(3, 1, Says::VoteReply(6, true), 0, 0),
        Tells::Acts(
            Few::One(Wrote::Entry(4, 6, 3)),
            Few::Two(
                Sent(1, 2, Says::Append(6, 3, 1, Few::One((6, 3)), 2)),
                Sent(1, 3, Says::Append(6, 3, 1, Few::One((6, 3)), 2)),
            ),
            Role::Leader,
            2,
        ),
    ),
    Step(
        Does::Hears(2, 1, Says::AppendReply(6, true, 3), 0, 0),
        Tells::Acts(
            Few::None,
            Few::One(Sent(1, 2, Says::Append(6, 3, 1, Few::One((6, 3)), 2))),
            Role::Leader,
            2,
        ),
    ),
    Step(
        Does::Hears(2, 1, Says::AppendReply(6, true, 4), 0, 0),
        Tells::Acts(
            Few::None,
            Few::Two(
                Sent(1, 2, Says::Append(6, 4, 6, Few::None, 4)),
                Sent(1, 3, Says::Append(6, 3, 1, Few::One((6, 3)), 4)),
            ),
            Role::Leader,
            4,
        ),
    ),
    Step(
        Does::Show(1),
        Tells::State(
            State(6, 1, Role::Leader, 0, 4),
            (2, 1),
            Few::Two((1, 12), (6, 3)),
        ),
    ),
];
