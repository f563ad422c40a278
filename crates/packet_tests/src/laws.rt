//! The laws of frames and of their places.
use port_classify::laws::{places_by_least, reads_back};

#[test]
fn the_laws_can_be_called() {
    places_by_least();
    reads_back();
}
