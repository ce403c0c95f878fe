//! What may cross threads.
use channel_bus::Side;

fn send<T: Send>() {}

fn side_is_send() {
    send::<Side>();
}
