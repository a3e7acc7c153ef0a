// A server may be shared by threads where its nodes may be handed to another thread, and what its calls answer may be handed on. The
// calls here ask for that, so it is proved here and not only where a thread is started.
use crate::{Served, Server, Shown, Tried};
use memory_node::MemoryNode;

fn is_sent<T: Send>(_value: &T) {}

fn is_shared<T: Sync>(_value: &T) {}

fn a_server_is_shared<N: MemoryNode + Send>(server: &Server<N>) {
    is_sent(server);
    is_shared(server);
}

fn answers_are_sent<N: MemoryNode + Send>(served: &Served<N>, tried: &Tried<N>, shown: &Shown<N>) {
    is_sent(served);
    is_sent(tried);
    is_sent(shown);
}
