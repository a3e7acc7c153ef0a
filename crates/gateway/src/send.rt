// A gateway may be handed to another thread with its lines and boards. The call here asks for that, so it is proved here and not
// only where a thread is started.
use crate::Gateway;

fn is_sent<T: Send>(_value: &T) {}

fn a_gateway_is_sent(gateway: &Gateway) {
    is_sent(gateway);
}
