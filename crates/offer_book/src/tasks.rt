//! Booked tasks.

ghost use Rattle.std.specs.Prelude.{◌≡◌, ◌<◌, ◌++◌, ◌∷◌, [], true, None, Some, option_map, List, if◌then◌else◌, length, map, filter, not, IfNone, OnOk, OnErr};
ghost use Rattle.std.specs.Option.{option_copied};
ghost use Rattle.std.specs.List.{list_any};
ghost use Rattle.std.specs.Map.{lookup};
ghost use Rattle.names_core.specs.Ids.{Numbered, same};
ghost use Rattle.cluster_model.specs.Sides.{received_update};
ghost use Rattle.offer_book.specs.Changes.{ended};
ghost use Rattle.messages.specs.declared.task.Booked.{Booked};
ghost use Rattle.offer_book.specs.Lists.{same_id, at_place, ids_of, list_at, find, without, Once};
ghost use Rattle.offer_book.specs.Tables.{HaveTheirIds, id_lists, moved};

use crate::located::Located;
use crate::walks::TasksAt;
use indexmap::IndexMap;
use messages::Booked;
use names_core::{LaunchKey, TaskState};
use std::alloc::{AllocError, Global};
use std::marker::Model;

/// Booked tasks, in a list for each place, in the order in which they were booked.
#[derive(Drop)]
pub struct Tasks {
    by_key: IndexMap<LaunchKey, Located<Booked>>,
    keys: Vec<Vec<LaunchKey>>,
}

impl Model for Tasks {
    ghost use Rattle.std.specs.Prelude.{List};
    ghost use Rattle.messages.specs.declared.task.Booked.{Booked};
    ghost use Rattle.offer_book.specs.Tables.{IsTable, lists_of};

    ghost Value = { List (List Booked) };

    ghost view = { λ t. lists_of t.by_key.entries t.keys.items };

    ghost invariant = { λ t. IsTable (λ x. x.job.key) t.by_key.entries t.keys.items
        (lists_of t.by_key.entries t.keys.items) };
}

/// What an update of a task reports.
#[derive(Clone, Copy, Drop)]
pub struct TaskUpdate {
    pub key: LaunchKey,
    /// The update's number.
    pub k: u32,
    pub state: TaskState,
    /// Whether the task has ended, whichever update this is.
    pub ended: bool,
}

fn receive_one(task: &mut Booked, update: &TaskUpdate)
    requires small { update.now.k < 4294967295 }
    requires its { same task.old.job.key update.now.key ≡ true }
    ensures { task.new ≡ received_update update.now.key update.now.k update.now.state
        update.now.ended task.old }
{
    let count = update.k + 1;
    if update.ended {
        task.ended = true;
    }
    if task.received <= count {
        task.received = count;
        task.state = update.state;
    }
}

fn insert(
    by_key: &mut IndexMap<LaunchKey, Located<Booked>>,
    place: usize,
    task: Booked,
) -> Result<(), AllocError>
    ensures ok { OnOk result ((q : Numbered) → lookup (same_id q) by_key.new.entries
        ≡ (if same_id task.job.key q then Some (record { place = place; item = task })
        else lookup (same_id q) by_key.old.entries)) }
    ensures err { OnErr result (by_key.new.entries ≡ by_key.old.entries) }
{
    let job = &task.job;
    let key = job.key;
    by_key.insert(key, Located { place, item: task })?;
    Ok(())
}

fn end_in(by_key: &mut IndexMap<LaunchKey, Located<Booked>>, key: LaunchKey)
    requires { HaveTheirIds (λ x. x.job.key) by_key.old.entries }
    ensures { (q : Numbered) → lookup (same_id q) by_key.new.entries
        ≡ option_map (moved (ended key)) (lookup (same_id q) by_key.old.entries) }
{
    if let Some(located) = by_key.get_mut(&key) {
        located.item.ended = true;
    }
}

fn receive_in(by_key: &mut IndexMap<LaunchKey, Located<Booked>>, update: &TaskUpdate)
    requires small { update.now.k < 4294967295 }
    requires theirs { HaveTheirIds (λ x. x.job.key) by_key.old.entries }
    ensures { let u = update.now in
        (q : Numbered) → lookup (same_id q) by_key.new.entries
        ≡ option_map (moved (received_update u.key u.k u.state u.ended))
        (lookup (same_id q) by_key.old.entries) }
{
    if let Some(located) = by_key.get_mut(&update.key) {
        receive_one(&mut located.item, update);
    }
}

fn push_key(keys: &mut Vec<Vec<LaunchKey>>, place: usize, key: LaunchKey) -> Result<(), AllocError>
    requires { place < length keys.old.items }
    ensures ok { OnOk result (id_lists keys.new.items
        ≡ at_place place (λ ks. ks ++ key ∷ []) (id_lists keys.old.items)) }
    ensures err { OnErr result (id_lists keys.new.items ≡ id_lists keys.old.items) }
{
    keys[place].push(key)?;
    Ok(())
}

fn keep_others(keys: &mut Vec<LaunchKey>, key: LaunchKey)
    ensures { keys.new.items ≡ filter (λ k. not (same_id key k)) keys.old.items }
{
    keys.retain(|other| key != *other);
}

fn remove_key(keys: &mut Vec<Vec<LaunchKey>>, place: usize, key: LaunchKey)
    ensures { id_lists keys.new.items
        ≡ at_place place (λ ks. filter (λ k. not (same_id key k)) ks) (id_lists keys.old.items) }
{
    if place < keys.len() {
        keep_others(&mut keys[place], key);
    }
}

fn remove_each(by_key: &mut IndexMap<LaunchKey, Located<Booked>>, keys: &[LaunchKey])
    ensures { (q : Numbered) → lookup (same_id q) by_key.new.entries
        ≡ (if list_any (same_id q) keys.now then None
        else lookup (same_id q) by_key.old.entries) }
{
    for key in keys {
        by_key.swap_remove(key);
    }
}

fn clear_keys(keys: &mut Vec<Vec<LaunchKey>>, place: usize)
    ensures { id_lists keys.new.items ≡ at_place place (λ ks. []) (id_lists keys.old.items) }
{
    if place < keys.len() {
        keys[place].clear();
    }
}

impl Tasks {
    /// No place.
    pub fn new(alloc: Global) -> Tasks
        ensures { result ≡ [] }
    {
        Tasks {
            by_key: IndexMap::new(alloc),
            keys: Vec::new(alloc),
        }
    }

    /// No two tasks have one key.
    pub(crate) fn are_apart(&self)
        ensures { Once (λ x. x.job.key) 0 self.now }
    {
        let _keys = &self.keys;
    }

    /// How many places there are.
    pub fn places(&self) -> usize
        ensures { result ≡ length self.now }
    {
        self.keys.len()
    }

    /// One place more, the last, with no task.
    pub fn add_place(&mut self, alloc: Global) -> Result<(), AllocError>
        ensures ok { OnOk result (self.new ≡ self.old ++ [] ∷ []) }
        ensures err { OnErr result (self.new ≡ self.old) }
    {
        self.keys.push(Vec::new(alloc))?;
        Ok(())
    }

    /// The task of this key, and its place.
    pub fn find(&self, key: LaunchKey) -> Option<&Located<Booked>>
        ensures found { option_copied result ≡ find (λ x. x.job.key) key self.now }
        ensures once { Once (λ x. x.job.key) 0 self.now }
    {
        self.by_key.get(&key)
    }

    /// One task more at a place, the last there.
    pub fn push(&mut self, place: usize, task: Booked) -> Result<(), AllocError>
        requires within { place < length self.old }
        requires new { find (λ x. x.job.key) task.job.key self.old ≡ None }
        ensures ok { OnOk result (self.new ≡ at_place place (λ bs. bs ++ task ∷ []) self.old) }
        ensures err { OnErr result (self.new ≡ self.old) }
    {
        let job = &task.job;
        let key = job.key;
        insert(&mut self.by_key, place, task)?;
        match push_key(&mut self.keys, place, key) {
            Ok(()) => Ok(()),
            Err(_) => {
                self.by_key.swap_remove(&key);
                Err(AllocError)
            }
        }
    }

    /// The task of this key is removed, where there is one, and returned with its place.
    pub fn remove(&mut self, key: LaunchKey) -> Option<Located<Booked>>
        ensures removed { result ≡ find (λ x. x.job.key) key self.old }
        ensures others { self.new ≡ map (without (λ x. x.job.key) key) self.old }
        ensures none { IfNone result (self.new ≡ self.old) }
        ensures once { Once (λ x. x.job.key) 0 self.old }
    {
        match self.by_key.swap_remove(&key) {
            Some(located) => {
                remove_key(&mut self.keys, located.place, key);
                Some(located)
            }
            None => None,
        }
    }

    /// The keys of the tasks at a place, in the order in which they were booked; none past the end.
    pub fn keys_at(&self, place: usize) -> &[LaunchKey]
        ensures keys { result.now ≡ ids_of (λ x. x.job.key) (list_at place self.now) }
        ensures once { Once (λ x. x.job.key) 0 self.now }
    {
        if place < self.keys.len() {
            self.keys[place].as_slice()
        } else {
            &[]
        }
    }

    /// The tasks at a place, in the order in which they were booked; none past the end.
    pub fn at(&self, place: usize) -> TasksAt<'_>
        ensures { result ≡ list_at place self.now }
    {
        TasksAt {
            by_key: &self.by_key,
            keys: self.keys_at(place),
        }
    }

    /// The tasks at a place are removed.
    pub fn clear(&mut self, place: usize)
        ensures { self.new ≡ at_place place (λ bs. []) self.old }
    {
        if place < self.keys.len() {
            remove_each(&mut self.by_key, &self.keys[place]);
            clear_keys(&mut self.keys, place);
        }
    }

    /// The task of this key, where there is one, has ended.
    pub fn end(&mut self, key: LaunchKey)
        ensures { self.new ≡ map (map (ended key)) self.old }
    {
        end_in(&mut self.by_key, key);
    }

    /// An update of the task of its key, where there is one, is received.
    pub fn receive(&mut self, update: &TaskUpdate)
        requires { update.now.k < 4294967295 }
        ensures { self.new ≡ map (map (received_update update.now.key update.now.k update.now.state
            update.now.ended)) self.old }
    {
        receive_in(&mut self.by_key, update);
    }
}
