ghost use Rattle.std.specs.Prelude.{◌≡◌};
ghost use Rattle.lsvd_device.specs.Device.{IsDisk};
ghost use Rattle.volume_commands.specs.Closing.{IsLetGo};
ghost use Rattle.vol_core.specs.View.{volume_disk};

use lsvd_device::Disk;
use lsvd_objstore::Receipt;
use vol_core::Volume;

// Lets a volume go, and gives its disk back.
pub(crate) fn let_go<D: Disk, R: Receipt>(volume: Volume<D, R>) -> D
    ensures same { D.state result ≡ volume_disk volume.volume }
    ensures is_disk { IsDisk (D.state result) }
    ensures let_go { IsLetGo volume }
{
    volume.into_disk()
}
