// A mirror may be handed to another thread where its nodes may. The call here asks for that, so it is proved here and not
// only where a thread is started.
use crate::Mirror;
use memory_node::MemoryNode;

fn is_sent<T: Send>(_value: &T) {}

fn a_mirror_is_sent<N: MemoryNode + Send>(mirror: &Mirror<N>) {
    is_sent(mirror);
}
