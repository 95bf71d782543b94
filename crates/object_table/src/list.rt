ghost use Rattle.std.specs.Prelude.{◌≡◌, ◌≤◌, length, vec_capacity};
ghost use Rattle.object_table.specs.Lists.{Climbs, inserted, removed, relisted};

// Sees to it that a number is among ascending ones, or that it is not. There is room for it.
pub(crate) fn list(numbers: &mut Vec<u64>, number: u64, is_in: bool)
    requires order { Climbs 0 numbers.old.items }
    requires room { length (relisted is_in number numbers.old.items) ≤ vec_capacity numbers.old }
    ensures items { numbers.new.items ≡ relisted is_in number numbers.old.items }
    ensures capacity { vec_capacity numbers.old ≤ vec_capacity numbers.new }
{
    if is_in {
        put_in(numbers, number);
    } else {
        take_out(numbers, number);
    }
}

// Puts a number among ascending ones, unless it is there. There is room for it.
fn put_in(numbers: &mut Vec<u64>, number: u64)
    requires order { Climbs 0 numbers.old.items }
    requires room { length (inserted number numbers.old.items) ≤ vec_capacity numbers.old }
    ensures items { numbers.new.items ≡ inserted number numbers.old.items }
    ensures capacity { vec_capacity numbers.old ≤ vec_capacity numbers.new }
{
    if let Err(at) = numbers.binary_search(&number) {
        let _ = numbers.insert(at, number);
    }
}

// Takes a number out of ascending ones, if it is there.
fn take_out(numbers: &mut Vec<u64>, number: u64)
    requires order { Climbs 0 numbers.old.items }
    ensures items { numbers.new.items ≡ removed number numbers.old.items }
    ensures capacity { vec_capacity numbers.old ≤ vec_capacity numbers.new }
{
    if let Ok(at) = numbers.binary_search(&number) {
        numbers.remove(at);
    }
}
