// The body of a name, found among the definitions one by one, or by an index of them: the definitions whose names have the
// same low number modulo 256 lead from each to the next, and the first is led to from the number's place.
ghost use Rattle.std.specs.Prelude.{◌≡◌, replicate};
ghost use Rattle.linker.specs.Roots.{root_by, root_from};
ghost use Rattle.linker.specs.Indexing.{Indexed};

// Names are alike that leave the same when their low numbers are divided by this.
const ALIKE: u32 = 256;

// The most definitions that an index has room for.
const MOST: u32 = language::DEFINITION_LIMIT as u32;

// The numbers of an index: one for each remainder, and one for each definition.
const INDEX_SIZE: usize = 384;

// The first of `count` definitions that has the name [lo, hi].
fn definition_of(definitions: &[u32], count: u32, lo: u32, hi: u32) -> Option<u32>
    ensures { root_by definitions.now result ≡ root_from definitions.now count lo hi 0 }
{
    (0..count).find(|d| formtable::has_name(definitions, *d, lo, hi))
}

// The record of the definition's body, and one; 0 if there is none. So it stands in a name's record.
fn root_at(definitions: &[u32], found: Option<u32>) -> u32
    ensures { result ≡ root_by definitions.now found }
{
    match found {
        Some(d) => tables::at(definitions, d as usize * 4 + 2).wrapping_add(1),
        None => 0,
    }
}

// The record of the body of the name [lo, hi], and one, in the first `count` definitions; 0 if there is none.
pub fn root_of(definitions: &[u32], count: u32, lo: u32, hi: u32) -> u32
    ensures { result ≡ root_from definitions.now count lo hi 0 }
{
    root_at(definitions, definition_of(definitions, count, lo, hi))
}

// An index with nothing in it: 256 places by names' low numbers, and one for each of up to 128 definitions.
fn empty() -> [u32; INDEX_SIZE]
    ensures { result ≡ replicate 384 0 }
{
    [0; INDEX_SIZE]
}

// The index of the first `count` definitions, made from the last to the first. A link is how many definitions there are
// from the one that it leads to on, 0 for none. The link of the definition with `left` from it on stands at left + 255.
// Beyond 128 definitions nothing is promised.
fn index(definitions: &[u32], count: u32) -> [u32; INDEX_SIZE]
    ensures { Indexed definitions.now count result }
{
    let mut links = empty();
    if MOST < count {
        return links;
    }
    for d in (0..count).rev() {
        let left = count - d;
        let first = (tables::at(definitions, d as usize * 4) % ALIKE) as usize;
        links[left as usize + 255] = links[first];
        links[first] = left;
    }
    links
}

// The first `count` definitions, with the index of their names.
#[derive(Drop)]
pub struct Names<'a> {
    definitions: &'a [u32],
    count: u32,
    links: [u32; INDEX_SIZE],
    ghost indexed: { Indexed definitions.now count links },
}

impl<'a> Names<'a> {
    // The first `count` definitions, indexed.
    pub fn new(definitions: &'a [u32], count: u32) -> Names<'a>
        ensures definitions { result.definitions.now ≡ definitions.now }
        ensures count { result.count ≡ count }
    {
        Names {
            definitions,
            count,
            links: index(definitions, count),
        }
    }

    // The first definition that has the name [lo, hi], by the index; beyond 128 definitions one by one.
    fn find(&self, lo: u32, hi: u32) -> Option<u32>
        ensures { root_by self.now.definitions.now result ≡ root_from self.now.definitions.now self.now.count lo hi 0 }
    {
        if MOST < self.count {
            return definition_of(self.definitions, self.count, lo, hi);
        }
        let mut left = self.links[(lo % ALIKE) as usize];
        while 0 < left {
            let d = self.count - left;
            if formtable::has_name(self.definitions, d, lo, hi) {
                return Some(d);
            }
            left = self.links[left as usize + 255];
        }
        None
    }

    // The same as root_of.
    pub fn root(&self, lo: u32, hi: u32) -> u32
        ensures { result ≡ root_from self.now.definitions.now self.now.count lo hi 0 }
    {
        root_at(self.definitions, self.find(lo, hi))
    }
}
