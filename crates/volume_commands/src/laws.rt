ghost use Rattle.volume_commands.specs.Lasting.{CreatedIsWhole, ServedWithIsWhole, ServedWithoutIsWhole};
ghost use Rattle.volume_commands.specs.Lasting.{CollectedWithIsWhole, CollectedWithoutIsWhole};
ghost use Rattle.volume_server.specs.Serving.{listener_told, link_told};

use lsvd_device::Disk;
use lsvd_listen::Listener;
use lsvd_objstore::{DirReceipt, Receipt};
use plain_disk::a_stop_keeps_what_was_acknowledged;
use refine_store::a_stopped_store_has_the_objects;
use vol_recover::{a_made_volume_stands_with_its_store, a_stop_leaves_what_a_mount_asks_for};
use volume_owner::acts_keep_the_store;
use volume_server::clients_add_to_one_history;

/// A law: a volume that was created may be mounted, with its cache and without it, and it has no entries.
pub fn a_created_volume_may_be_mounted()
    ensures { CreatedIsWhole }
{
    a_made_volume_stands_with_its_store();
    a_stop_leaves_what_a_mount_asks_for::<DirReceipt>();
}

/// A law: a volume that was served may be mounted again, with its cache, by whatever a stop leaves of that,
/// and without it. Either mount makes a volume whose history is that which the mount before made, with the
/// entries that clients added: each of them was put into the store.
pub fn a_served_volume_may_be_mounted_again<D: Disk, R: Receipt, L: Listener>()
    ensures with_cache { ServedWithIsWhole (λ disk. D.state disk) R.state
        (listener_told L.given L.closed L.faults)
        (λ clients. L.coming clients)
        (link_told L.Link.remaining L.Link.contents L.Link.held L.Link.Source.faults) }
    ensures without { ServedWithoutIsWhole (λ disk. D.state disk) R.state
        (listener_told L.given L.closed L.faults)
        (λ clients. L.coming clients)
        (link_told L.Link.remaining L.Link.contents L.Link.held L.Link.Source.faults) }
{
    clients_add_to_one_history::<R, L::Link>();
    acts_keep_the_store::<R>();
    a_made_volume_stands_with_its_store();
    a_stop_leaves_what_a_mount_asks_for::<R>();
    a_stopped_store_has_the_objects();
    a_stop_keeps_what_was_acknowledged();
}

/// A law: a volume that was collected may be mounted again, with its cache, by whatever a stop leaves of
/// that, and without it. Either mount makes a volume whose history is that which the mount before made.
pub fn a_collected_volume_may_be_mounted_again<D: Disk, R: Receipt>()
    ensures with_cache { CollectedWithIsWhole (λ disk. D.state disk) R.state }
    ensures without { CollectedWithoutIsWhole (λ disk. D.state disk) R.state }
{
    acts_keep_the_store::<R>();
    a_made_volume_stands_with_its_store();
    a_stop_leaves_what_a_mount_asks_for::<R>();
    a_stopped_store_has_the_objects();
    a_stop_keeps_what_was_acknowledged();
}
