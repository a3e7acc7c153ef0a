// Nodes may be handed to other threads. Each call here asks for that, so it is proved here and not only where a thread
// is started.
use crate::{MemNode, MemRack, Rack};

fn is_sent<T: Send>(_value: &T) {}

fn a_node_is_sent(node: &MemNode) {
    is_sent(node);
}

fn a_node_of_a_rack_is_sent<R: Rack>(node: &R::Node) {
    is_sent(node);
}

fn a_node_of_a_rack_in_memory_is_sent(node: &MemNode) {
    a_node_of_a_rack_is_sent::<MemRack>(node);
}
