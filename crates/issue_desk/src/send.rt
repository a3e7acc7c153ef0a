// A desk may be handed to another thread where its nodes may. The call here asks for that, so it is proved here and not only where a thread
// is started.
use crate::IssueDesk;
use memory_node::MemoryNode;

fn is_sent<T: Send>(_value: &T) {}

fn a_desk_is_sent<N: MemoryNode + Send>(desk: &IssueDesk<'_, N>) {
    is_sent(desk);
}
