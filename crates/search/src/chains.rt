// The places of each key, linked in rising order.
ghost use Rattle.std.specs.Prelude.{◌≡◌, ℕ, ◌+◌, ◌<◌, ◌≤◌, slice_index};
ghost use Rattle.search.specs.Keys.{FirstFrom, StartOf, OwnStart, IsStarted, IsNearest, IsLinked};

/// The places below `count` in chains, each of one key. A place of the key 0 is in none.
#[derive(Drop)]
pub struct Chains {
    count: usize,
    keys: [u16; 256],
    starts: [u16; 256],
    nexts: [u16; 256],
    ghost few: { count ≤ 256 },
    ghost linked: { IsLinked keys count starts nexts },
}

impl Chains {
    /// The chains of the places below `count`, whose keys these are.
    pub fn new(keys: [u16; 256], count: usize) -> Self
        requires { count ≤ 256 }
        ensures the_keys { result.keys ≡ keys }
        ensures the_count { result.count ≡ count }
    {
        let mut starts = own_starts(&keys, count);
        let near = nearest(&keys, count);
        let mut nexts = [0; 256];
        for place in 0..count {
            let next = next_of(&keys, &near, count, place);
            nexts[place] = next as u16;
            // the next place of a key has the same start
            if next < count {
                starts[next] = starts[place];
            }
        }
        Chains {
            count,
            keys,
            starts,
            nexts,
        }
    }

    pub fn count(&self) -> usize
        ensures count { result ≡ self.now.count }
        ensures few { result ≤ 256 }
    {
        self.count
    }

    /// Where the chain of a place starts, or `count` where it is in none.
    pub fn start(&self, place: usize) -> usize
        requires { place < self.now.count }
        ensures value { result ≡ slice_index self.now.starts place }
        ensures start { StartOf self.now.keys self.now.count place result }
    {
        usize::from(self.starts[place])
    }

    /// The next place of a place's key, or `count`.
    pub fn next(&self, place: usize) -> usize
        requires { place < self.now.count }
        ensures { FirstFrom self.now.keys self.now.count (place + 1) (slice_index self.now.keys place) result }
    {
        usize::from(self.nexts[place])
    }
}

// Where the chain of a place starts if no place before it has its key.
fn own_start(keys: &[u16; 256], count: usize, place: usize) -> usize
    requires place_below { place < count }
    requires few { count ≤ 256 }
    ensures { OwnStart keys.now count place result }
{
    if keys[place] == 0 { count } else { place }
}

fn own_starts(keys: &[u16; 256], count: usize) -> [u16; 256]
    requires { count ≤ 256 }
    ensures { IsStarted keys.now count 0 result }
{
    let mut starts = [0; 256];
    for place in 0..count {
        starts[place] = own_start(keys, count, place) as u16;
    }
    starts
}

// The next place behind each place whose key has the same low byte, or `count`. Filled from the last place on, when the heads are the first of each low byte behind it.
fn nearest(keys: &[u16; 256], count: usize) -> [u16; 256]
    requires { count ≤ 256 }
    ensures { IsNearest keys.now count result }
{
    let mut heads = [count as u16; 256];
    let mut near = [0; 256];
    for place in (0..count).rev() {
        let low = usize::from(keys[place] % 256);
        near[place] = heads[low];
        heads[low] = place as u16;
    }
    near
}

// The next place of the key of a place, or `count`. Few places share a low byte, so the walk is short, where a search through all places in between is long.
fn next_of(keys: &[u16; 256], near: &[u16; 256], count: usize, place: usize) -> usize
    requires place_below { place < count }
    requires few { count ≤ 256 }
    requires near { IsNearest keys.now count near.now }
    ensures { FirstFrom keys.now count (place + 1) (slice_index keys.now place) result }
{
    let key = keys[place];
    let mut next = usize::from(near[place]);
    while next < count {
        if keys[next] == key {
            return next;
        }
        next = usize::from(near[next]);
    }
    count
}
