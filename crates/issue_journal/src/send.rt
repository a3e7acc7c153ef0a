// An issue may be handed to another thread where its nodes may, and so may a room. The calls here ask for that, so it is proved
// here and not only where a thread is started.
use crate::{Issue, IssueRoom};
use memory_node::MemoryNode;

fn is_sent<T: Send>(_value: &T) {}

fn an_issue_is_sent<N: MemoryNode + Send>(issue: &Issue<N>) {
    is_sent(issue);
}

fn a_room_is_sent(room: &IssueRoom) {
    is_sent(room);
}
