// Room for one routine of the greatest size: storage that other crates pass on and do not look into.
use crate::storage::Storage;

#[derive(Drop)]
pub struct Room(pub(crate) Storage);
