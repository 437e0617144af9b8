// An entry is committed on three nodes, while messages are lost, repeated and late.
use crate::script::{Does, Few, Says, Sent, State, Step, Tells, Wrote};
use raft_types::state::Role;

/// An election, two commands and a second leader, while messages are lost, repeated and late.
pub static LOSSES: [Step; 47] = [
    // Node 1 is elected by node 2, which hears the request twice; its request to node 3 is lost.
    Step(
        Does::Timeout(1),
        Tells::Acts(
            Few::One(Wrote::Vote(1, 1)),
            Few::Two(
                Sent(1, 2, Says::Vote(1, 0, 0)),
                Sent(1, 3, Says::Vote(1, 0, 0)),
            ),
            Role::Candidate,
            0,
        ),
    ),
    Step(Does::Lose(1), Tells::Nothing),
    Step(
        Does::Again(0),
        Tells::Acts(
            Few::One(Wrote::Vote(1, 1)),
            Few::One(Sent(2, 1, Says::VoteReply(1, true))),
            Role::Follower,
            0,
        ),
    ),
    Step(
        Does::Deliver(0),
        Tells::Acts(
            Few::None,
            Few::One(Sent(2, 1, Says::VoteReply(1, true))),
            Role::Follower,
            0,
        ),
    ),
    Step(
        Does::Deliver(0),
        Tells::Acts(
            Few::None,
            Few::Two(
                Sent(1, 2, Says::Append(1, 0, 0, Few::None, 0)),
                Sent(1, 3, Says::Append(1, 0, 0, Few::None, 0)),
            ),
            Role::Leader,
            0,
        ),
    ),
    Step(
        Does::Deliver(0),
        Tells::Acts(Few::None, Few::None, Role::Leader, 0),
    ),
    // Two commands: node 2 hears the longer append before the shorter one, and node 3 hears none.
    Step(
        Does::Command(1, 10),
        Tells::Acts(
            Few::One(Wrote::Entry(1, 1, 10)),
            Few::Two(
                Sent(1, 2, Says::Append(1, 0, 0, Few::One((1, 10)), 0)),
                Sent(1, 3, Says::Append(1, 0, 0, Few::One((1, 10)), 0)),
            ),
            Role::Leader,
            0,
        ),
    ),
    Step(
        Does::Command(1, 11),
        Tells::Acts(
            Few::One(Wrote::Entry(2, 1, 11)),
            Few::Two(
                Sent(1, 2, Says::Append(1, 0, 0, Few::Two((1, 10), (1, 11)), 0)),
                Sent(1, 3, Says::Append(1, 0, 0, Few::Two((1, 10), (1, 11)), 0)),
            ),
            Role::Leader,
            0,
        ),
    ),
    Step(Does::Lose(0), Tells::Nothing),
    Step(Does::Lose(0), Tells::Nothing),
    Step(
        Does::Deliver(2),
        Tells::Acts(
            Few::Two(Wrote::Entry(1, 1, 10), Wrote::Entry(2, 1, 11)),
            Few::One(Sent(2, 1, Says::AppendReply(1, true, 2))),
            Role::Follower,
            0,
        ),
    ),
    Step(
        Does::Deliver(0),
        Tells::Acts(
            Few::None,
            Few::One(Sent(2, 1, Says::AppendReply(1, true, 1))),
            Role::Follower,
            0,
        ),
    ),
    Step(Does::Lose(0), Tells::Nothing),
    // Node 1 commits both.
    Step(
        Does::Deliver(1),
        Tells::Acts(
            Few::None,
            Few::Two(
                Sent(1, 2, Says::Append(1, 2, 1, Few::None, 2)),
                Sent(1, 3, Says::Append(1, 0, 0, Few::Two((1, 10), (1, 11)), 2)),
            ),
            Role::Leader,
            2,
        ),
    ),
    Step(Does::Lose(3), Tells::Nothing),
    // Node 3, whose log is empty, stands in the same term, and is refused.
    Step(
        Does::Timeout(3),
        Tells::Acts(
            Few::One(Wrote::Vote(1, 3)),
            Few::Two(
                Sent(3, 1, Says::Vote(1, 0, 0)),
                Sent(3, 2, Says::Vote(1, 0, 0)),
            ),
            Role::Candidate,
            0,
        ),
    ),
    Step(
        Does::Deliver(3),
        Tells::Acts(
            Few::None,
            Few::One(Sent(1, 3, Says::VoteReply(1, false))),
            Role::Leader,
            2,
        ),
    ),
    Step(Does::Lose(3), Tells::Nothing),
    Step(
        Does::Deliver(1),
        Tells::Acts(Few::None, Few::None, Role::Leader, 2),
    ),
    // Node 2 stands in the next term; node 3 first hears an append of node 1.
    Step(
        Does::Timeout(2),
        Tells::Acts(
            Few::One(Wrote::Vote(2, 2)),
            Few::Two(
                Sent(2, 1, Says::Vote(2, 2, 1)),
                Sent(2, 3, Says::Vote(2, 2, 1)),
            ),
            Role::Candidate,
            0,
        ),
    ),
    Step(
        Does::Deliver(0),
        Tells::Acts(
            Few::Two(Wrote::Entry(1, 1, 10), Wrote::Entry(2, 1, 11)),
            Few::One(Sent(3, 1, Says::AppendReply(1, true, 2))),
            Role::Follower,
            0,
        ),
    ),
    Step(
        Does::Again(2),
        Tells::Acts(
            Few::One(Wrote::Vote(2, 2)),
            Few::One(Sent(1, 2, Says::VoteReply(2, true))),
            Role::Follower,
            2,
        ),
    ),
    Step(
        Does::Deliver(2),
        Tells::Acts(
            Few::None,
            Few::One(Sent(1, 2, Says::VoteReply(2, true))),
            Role::Follower,
            2,
        ),
    ),
    Step(
        Does::Deliver(2),
        Tells::Acts(
            Few::One(Wrote::Vote(2, 2)),
            Few::One(Sent(3, 2, Says::VoteReply(2, true))),
            Role::Follower,
            0,
        ),
    ),
    // It is elected, appends a noop, and hears its old leader no more.
    Step(
        Does::Deliver(5),
        Tells::Acts(
            Few::One(Wrote::Entry(3, 2, 3)),
            Few::Two(
                Sent(2, 1, Says::Append(2, 2, 1, Few::One((2, 3)), 0)),
                Sent(2, 3, Says::Append(2, 2, 1, Few::One((2, 3)), 0)),
            ),
            Role::Leader,
            0,
        ),
    ),
    Step(
        Does::Deliver(3),
        Tells::Acts(Few::None, Few::None, Role::Leader, 0),
    ),
    Step(
        Does::Deliver(3),
        Tells::Acts(Few::None, Few::None, Role::Leader, 0),
    ),
    Step(
        Does::Show(2),
        Tells::State(
            State(2, 2, Role::Leader, 0, 0),
            (0, 0),
            Few::Three((1, 10), (1, 11), (2, 3)),
        ),
    ),
    Step(
        Does::Deliver(0),
        Tells::Acts(
            Few::None,
            Few::One(Sent(2, 1, Says::AppendReply(2, false, 0))),
            Role::Leader,
            0,
        ),
    ),
    // Node 3 hears each append twice, and node 2 each reply.
    Step(
        Does::Again(3),
        Tells::Acts(
            Few::One(Wrote::Entry(3, 2, 3)),
            Few::One(Sent(3, 2, Says::AppendReply(2, true, 3))),
            Role::Follower,
            0,
        ),
    ),
    Step(
        Does::Deliver(3),
        Tells::Acts(
            Few::None,
            Few::One(Sent(3, 2, Says::AppendReply(2, true, 3))),
            Role::Follower,
            0,
        ),
    ),
    Step(
        Does::Deliver(4),
        Tells::Acts(
            Few::None,
            Few::Two(
                Sent(2, 1, Says::Append(2, 2, 1, Few::One((2, 3)), 3)),
                Sent(2, 3, Says::Append(2, 3, 2, Few::None, 3)),
            ),
            Role::Leader,
            3,
        ),
    ),
    Step(
        Does::Deliver(4),
        Tells::Acts(Few::None, Few::None, Role::Leader, 3),
    ),
    Step(
        Does::Again(5),
        Tells::Acts(
            Few::None,
            Few::One(Sent(3, 2, Says::AppendReply(2, true, 3))),
            Role::Follower,
            3,
        ),
    ),
    Step(
        Does::Deliver(5),
        Tells::Acts(
            Few::None,
            Few::One(Sent(3, 2, Says::AppendReply(2, true, 3))),
            Role::Follower,
            3,
        ),
    ),
    Step(
        Does::Deliver(5),
        Tells::Acts(Few::None, Few::None, Role::Leader, 3),
    ),
    Step(
        Does::Deliver(5),
        Tells::Acts(Few::None, Few::None, Role::Leader, 3),
    ),
    // What is left in flight arrives, and all three have the same log, committed.
    Step(
        Does::Deliver(0),
        Tells::Acts(Few::None, Few::None, Role::Follower, 3),
    ),
    Step(
        Does::Deliver(0),
        Tells::Acts(Few::None, Few::None, Role::Follower, 2),
    ),
    Step(
        Does::Deliver(0),
        Tells::Acts(
            Few::One(Wrote::Entry(3, 2, 3)),
            Few::One(Sent(1, 2, Says::AppendReply(2, true, 3))),
            Role::Follower,
            2,
        ),
    ),
    Step(
        Does::Deliver(0),
        Tells::Acts(Few::None, Few::None, Role::Follower, 2),
    ),
    Step(
        Does::Deliver(0),
        Tells::Acts(
            Few::None,
            Few::One(Sent(1, 2, Says::AppendReply(2, true, 3))),
            Role::Follower,
            3,
        ),
    ),
    Step(
        Does::Deliver(0),
        Tells::Acts(Few::None, Few::None, Role::Leader, 3),
    ),
    Step(
        Does::Deliver(0),
        Tells::Acts(Few::None, Few::None, Role::Leader, 3),
    ),
    Step(
        Does::Show(1),
        Tells::State(
            State(2, 2, Role::Follower, 2, 3),
            (0, 0),
            Few::Three((1, 10), (1, 11), (2, 3)),
        ),
    ),
    Step(
        Does::Show(2),
        Tells::State(
            State(2, 2, Role::Leader, 0, 3),
            (0, 0),
            Few::Three((1, 10), (1, 11), (2, 3)),
        ),
    ),
    Step(
        Does::Show(3),
        Tells::State(
            State(2, 2, Role::Follower, 2, 3),
            (0, 0),
            Few::Three((1, 10), (1, 11), (2, 3)),
        ),
    ),
];
