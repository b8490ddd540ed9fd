ghost use Rattle.class_pool.specs.Place.{Place, IsBytes};
ghost use Rattle.class_pool.specs.FirstFault.{IsDecided};

/// A law: bytes begin with one pool or have one first fault (JVMS 4.4). Does nothing.
pub fn pool_or_fault()
    ensures { (place : Place) → IsBytes place.rest → IsDecided place }
{}
