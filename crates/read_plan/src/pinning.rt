ghost use Rattle.std.specs.Prelude.{◌≡◌, ℕ, ◌+◌, ◌<◌, ◌^◌, ◌↔◌, IsTrue};
ghost use Rattle.std.specs.List.{All};
ghost use Rattle.std.specs.List.Sorted.{IsStrictlyIncreasing};
ghost use Rattle.object_table.specs.Table.{row_of};
ghost use Rattle.object_uploads.specs.Queue.{pins_of};
ghost use Rattle.object_uploads.specs.Removal.{PinsEach, UnpinsEach};

use lsvd_objstore::Receipt;
use object_uploads::Uploads;

// Pins each of these objects once more. They ascend strictly, and each has fewer than 2^64 - 1 pins.
pub(crate) fn pin_each<R: Receipt>(uploads: &mut Uploads<R>, numbers: &[u64])
    requires ascending { IsStrictlyIncreasing numbers.now }
    requires pins { (number : ℕ) → pins_of (row_of number uploads.old.queue.maps.objects.rows) + 1
        < 2 ^ 64 }
    ensures { PinsEach numbers.now uploads.old uploads.new }
{
    for number in numbers {
        uploads.pin(*number);
    }
}

// Whether each of these objects is pinned.
pub(crate) fn are_pinned<R: Receipt>(uploads: &Uploads<R>, numbers: &[u64]) -> bool
    ensures { IsTrue result ↔ All (λ number. 0 < pins_of
        (row_of number uploads.now.queue.maps.objects.rows)) numbers.now }
{
    numbers.iter().all(|number| uploads.pins(*number) > 0)
}

// Gives one pin of each of these objects back. They ascend strictly, and each is pinned.
pub(crate) fn unpin_each<R: Receipt>(uploads: &mut Uploads<R>, numbers: &[u64])
    requires ascending { IsStrictlyIncreasing numbers.now }
    requires pinned { All (λ number. 0 < pins_of (row_of number uploads.old.queue.maps.objects.rows))
        numbers.now }
    ensures { UnpinsEach numbers.now uploads.old uploads.new }
{
    for number in numbers {
        uploads.unpin(*number);
    }
}
