//! The services that trips name, each once, so that each is looked up only once for a day.

ghost use Rattle.std.specs.Prelude.{◌≡◌, [], List, map, IfOk, OnOk};
ghost use Rattle.gtfs_rows.specs.Ids.{StandsAt, seen_also};
ghost use Rattle.gtfs_rows.specs.declared.rows.CalendarDateRow.{CalendarDateRow};
ghost use Rattle.gtfs_rows.specs.declared.rows.CalendarRow.{CalendarRow};
ghost use Rattle.gtfs_rows.specs.declared.values.Day.{Day as CalendarDay};
ghost use Rattle.indexmap.specs.IndexMap.{hasher_of as hash_of_services};
ghost use Rattle.indexmap.specs.IndexSet.{hasher_of};
ghost use Rattle.service_days.specs.Named.{names_of};
ghost use Rattle.service_days.specs.Services.{HoldsServices, is_active, service_runs};
ghost use Rattle.std.specs.String.{string_bytes};

use crate::services::{Service, Services, active};
use gtfs_rows::{Day, IdHash};
use indexmap::IndexSet;
use std::alloc::{AllocError, Global};

/// Distinct services, in the order in which they were first named.
#[derive(Drop)]
pub struct NamedServices {
    ids: IndexSet<String, IdHash>,
}

impl NamedServices {
    /// Returns an empty list, whose services are looked up by the hash of all services.
    pub fn new(alloc: Global, services: &Services) -> NamedServices
        ensures empty { names_of result ≡ [] }
        ensures hash { hasher_of result.ids ≡ hash_of_services services.now.weeks }
    {
        NamedServices {
            ids: IndexSet::with_hasher(alloc, services.hash()),
        }
    }

    /// Returns the index of a service, which is added at the end if it wasn't named before. Memory may run out.
    pub fn index_of(&mut self, service: &String) -> Result<usize, AllocError>
        ensures names { OnOk result (names_of self.new ≡ seen_also (names_of self.old) (string_bytes service.now)) }
        ensures index { IfOk result (λ index. StandsAt (names_of self.new) index (string_bytes service.now)) }
        ensures hash { OnOk result (hasher_of self.new.ids ≡ hasher_of self.old.ids) }
    {
        if let Some((index, _)) = self.ids.get_full(service.as_str()) {
            return Ok(index);
        }
        let (index, _) = self.ids.insert_full(service.clone()?)?;
        Ok(index)
    }

    /// Returns for each service, in order, whether it runs on a day, as [`active`] does. Memory may run out.
    pub fn active_on(
        &self,
        alloc: Global,
        services: &Services,
        day: Day,
    ) -> Result<Vec<bool>, AllocError>
        ensures { (calendar : List CalendarRow) (dates : List CalendarDateRow)
            → HoldsServices calendar dates services.now
            → IfOk result (λ running. running.items
            ≡ map (λ name. is_active calendar dates name day) (names_of self.now)) }
    {
        let mut running = Vec::with_capacity(alloc, self.ids.len())?;
        for id in self.ids.as_slice() {
            running.push(active(services, id, day))?;
        }
        Ok(running)
    }

    /// Returns for each service, in order, what the calendars say of it. Memory may run out.
    pub fn look_up_each<'a>(
        &self,
        alloc: Global,
        services: &'a Services,
    ) -> Result<Vec<Service<'a>>, AllocError>
        ensures { (calendar : List CalendarRow) (dates : List CalendarDateRow)
            → HoldsServices calendar dates services.now
            → IfOk result (λ each. (day : CalendarDay) → map (λ service. service_runs service day) each.items
            ≡ map (λ name. is_active calendar dates name day) (names_of self.now)) }
    {
        let mut each = Vec::with_capacity(alloc, self.ids.len())?;
        for id in self.ids.as_slice() {
            each.push(services.look_up(id))?;
        }
        Ok(each)
    }
}
