//! What a method states.
ghost use Rattle.std.specs.Prelude.{◌≡◌, ◌≤◌};
ghost use Rattle.cds_base.specs.EventRange.{EventRanges};
ghost use Rattle.cds_base.specs.declared.event.TheConstants.{MOST_SLOPE};
ghost use Rattle.cds_rules.specs.Ranges.{SlopeRanges, LeastRanges, TimeRanges, RulesRange, ComponentRanges, CheckRanges};
ghost use Rattle.cds_rules.specs.declared.limits.TheConstants.{MOST_BUNCH, MOST_PLATEAU};

use crate::check::CheckList;
use crate::component::ComponentList;
use crate::limits::{FIRST_RULES, MOST_BUNCH, MOST_PLATEAU};
use cds_base::{EventList, MOST_SLOPE};
use std::alloc::Global;

/// How the points of a calibration line are weighted.
#[derive(Clone, Copy, Debug, PartialEq, Eq)]
pub enum Weight {
    /// All points alike.
    Equal,
    /// All points alike, and the line goes through the origin.
    Origin,
    /// Each point by the inverse of its amount.
    Inverse,
}

/// A method. Its numbers are in their ranges and its lists within their counts, which is this project's own rule.
#[derive(Debug, Drop)]
pub struct Method {
    /// How many samples are summed to one bunch, 1 to 64.
    pub bunch: u32,
    /// The least slope at which a peak begins to rise, 1 to 1,000,000,000 counts per second.
    pub slope_on: u32,
    /// The least slope, downwards, at which it falls, 1 to 1,000,000,000 counts per second.
    pub slope_off: u32,
    /// How many flat bunches a climb passes over before the next one ends it, at most 1,000.
    pub plateau: u32,
    /// How many bunches may lie between two peaks that are fused into one cluster, at most 1,000.
    pub fuse: u32,
    /// The least area of a peak that is reported, in count milliseconds, at most 4,000,000,000,000,000.
    pub min_area: u64,
    /// The least height of a peak that is reported, in counts, at most 200,000,000.
    pub min_height: u32,
    /// How the points of calibration are weighted.
    pub weight: Weight,
    /// The time of an unretained substance, 1 to 14,400,000,000 microseconds.
    pub dead_time_us: Option<u64>,
    /// Where the noise window begins, in milliseconds; it stands where `noise_to_ms` does, and below it.
    pub noise_from_ms: Option<u32>,
    /// Where the noise window ends, at most 14,400,000 milliseconds.
    pub noise_to_ms: Option<u32>,
    /// The edition of the rules of integration, 1 or 2.
    pub rules: u8,
    /// The components, at most 32 of different names.
    pub components: ComponentList,
    /// The timed events, at most 64.
    pub events: EventList,
    /// The checks of system suitability, at most 64, of components of this method.
    pub checks: CheckList,
    pub ghost slopes: { SlopeRanges bunch slope_on slope_off plateau },
    pub ghost least: { LeastRanges fuse min_area min_height },
    pub ghost times: { TimeRanges dead_time_us noise_from_ms noise_to_ms },
    pub ghost edition: { RulesRange rules },
    pub ghost named: { ComponentRanges components },
    pub ghost timed: { EventRanges events },
    pub ghost checked: { CheckRanges components checks },
}

impl Method {
    ghost use Rattle.std.specs.Prelude.{[], None};
    ghost use Rattle.cds_rules.specs.Fields.{fields_of};
    ghost use Rattle.cds_rules.specs.declared.method.Weight.TheVariants.{Equal};

    /// The method of these four numbers, which has no components, events or checks, no dead time and no noise
    /// window, rejects no peak for a small area or height, fuses only peaks that touch, weights all points alike
    /// and follows the rules of edition 1. It takes no memory.
    pub fn of_slopes(
        alloc: Global,
        bunch: u32,
        slope_on: u32,
        slope_off: u32,
        plateau: u32,
    ) -> Method
        requires bunch { (1 ≤ bunch) × (bunch ≤ MOST_BUNCH) }
        requires slope_on { (1 ≤ slope_on) × (slope_on ≤ MOST_SLOPE) }
        requires slope_off { (1 ≤ slope_off) × (slope_off ≤ MOST_SLOPE) }
        requires plateau { plateau ≤ MOST_PLATEAU }
        ensures { fields_of result ≡ record {
          bunch = bunch;
          slope_on = slope_on;
          slope_off = slope_off;
          plateau = plateau;
          fuse = 0;
          min_area = 0;
          min_height = 0;
          weight = Equal;
          dead_time_us = None;
          noise_from_ms = None;
          noise_to_ms = None;
          rules = FIRST_RULES;
          components = [];
          events = [];
          checks = [];
        } }
    {
        Method {
            bunch,
            slope_on,
            slope_off,
            plateau,
            fuse: 0,
            min_area: 0,
            min_height: 0,
            weight: Weight::Equal,
            dead_time_us: None,
            noise_from_ms: None,
            noise_to_ms: None,
            rules: FIRST_RULES,
            components: ComponentList::from_vec(Vec::new(alloc)),
            events: EventList::from_vec(Vec::new(alloc)),
            checks: CheckList::from_vec(Vec::new(alloc)),
        }
    }
}
