use clone_chain::Chain;
use lsvd_base::Geometry;
use lsvd_objstore::Names;
use uuid::Uuid;

/// What a store says of a volume that is to be mounted.
#[derive(Drop)]
pub struct StoredVolume {
    /// Its uuid.
    pub uuid: Uuid,
    /// Its sizes, with the log of the device that it is mounted on.
    pub geometry: Geometry,
    /// Its ancestors.
    pub chain: Chain,
    /// Its newest epoch.
    pub epoch: u64,
    /// The names of all that the store has of it.
    pub names: Names,
}
