//! Finds the first one left of many with the same key.
ghost use Rattle.std.specs.Prelude.{◌≡◌, ◌∷◌, [], ◌++◌, IfOk, MatchOption, OnOk, cond, map};
ghost use Rattle.std.specs.Map.{lookup, remove_entry};
ghost use Rattle.mimic_events.specs.Key.{is_same, key_read, same_key};
ghost use Rattle.mimic_events.specs.declared.key.Key.{Key as Found};
ghost use Rattle.mimic_expect.specs.KeyedItems.{places_at};

use mimic_events::Key;
use std::alloc::{AllocError, Global};
use std::collections::{HashMap, VecDeque};
use std::hash::BuildHasher;
use std::marker::Model;

// Items with keys, of which the first one left with a key can be taken at once.
//
// Contracts see those that are left, each with its key.
#[derive(Drop)]
pub(crate) struct KeyedItems<'a, T: Copy, S: BuildHasher> {
    // The items, each with its key, and whether it is left.
    items: Vec<(Key<'a>, T, bool)>,
    // The places of those that are left with a key, in their order.
    places: HashMap<Key<'a>, VecDeque<usize>, S>,
}

impl<'a, T: Copy, S: BuildHasher> Model for KeyedItems<'a, T, S> {
    ghost use Rattle.std.specs.Prelude.{List};
    ghost use Rattle.mimic_events.specs.Key.{Key as KeyRead};

    ghost Value = { List (KeyRead × T) };

    ghost use Rattle.mimic_expect.specs.KeyedItems.{ArePlaces, left_of};

    ghost view = { λ keyed. left_of keyed.items.items };

    ghost invariant = { λ keyed. ArePlaces keyed.places keyed.items.items };
}

impl<'a, T: Copy, S: BuildHasher + Copy> KeyedItems<'a, T, S> {
    pub(crate) fn new(
        alloc: Global,
        hash_builder: S,
        items: &[(Key<'a>, T)],
    ) -> Result<KeyedItems<'a, T, S>, AllocError>
        ensures { IfOk result (λ keyed. keyed ≡ map (λ x. (key_read x.0, x.1)) items.now) }
    {
        let mut all = Vec::new(alloc);
        let mut places = HashMap::with_hasher(alloc, hash_builder);
        for (key, item) in items {
            add_place(alloc, &mut places, *key, all.len())?;
            all.push((*key, *item, true))?;
        }
        Ok(KeyedItems { items: all, places })
    }

    // Takes the first one left with the key.
    pub(crate) fn take(&mut self, key: &Key<'a>) -> Option<T>
        ensures found { result ≡ lookup (same_key (key_read key.now)) self.old }
        ensures left { self.new ≡ remove_entry (same_key (key_read key.now)) self.old }
    {
        let place = first_place(&mut self.places, key)?;
        let (_, item, is_left) = &mut self.items[place];
        *is_left = false;
        Some(*item)
    }

    // Returns those that are left, in their order.
    pub(crate) fn left(&self, alloc: Global) -> Result<Vec<T>, AllocError>
        ensures { IfOk result (λ left. left.items ≡ map (λ x. x.1) self.now) }
    {
        self.items
            .iter()
            .filter(|item| item.2)
            .map(|item| item.1)
            .collect(alloc)
    }
}

// Adds a place behind those with the same key.
fn add_place<'a, S: BuildHasher>(
    alloc: Global,
    places: &mut HashMap<Key<'a>, VecDeque<usize>, S>,
    key: Key<'a>,
    place: usize,
) -> Result<(), AllocError>
    ensures { OnOk result ((x : Found) → places_at places.new x ≡ places_at places.old x ++ cond (is_same key.entry x) (place ∷ []) []) }
{
    if let Some(queue) = places.get_mut(&key) {
        queue.push_back(place)?;
        return Ok(());
    }
    let mut queue = VecDeque::new(alloc);
    queue.push_back(place)?;
    places.insert(key, queue)?;
    Ok(())
}

// Takes the first place with the key.
fn first_place<'a, S: BuildHasher>(
    places: &mut HashMap<Key<'a>, VecDeque<usize>, S>,
    key: &Key<'a>,
) -> Option<usize>
    ensures { MatchOption result
        ((places_at places.old key.now ≡ []) × ((x : Found) → places_at places.new x ≡ places_at places.old x))
        (λ place. (x : Found) → places_at places.old x ≡ cond (is_same key.now x) (place ∷ []) [] ++ places_at places.new x) }
{
    let place = places.get_mut(key)?.pop_front()?;
    Some(place)
}
