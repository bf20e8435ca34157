// What a layer makes of a system, and what a layer on both sides makes of the prebisimulations.
ghost use Rattle.std.specs.Prelude.{◌≡◌};
ghost use Rattle.views.specs.Layers.{all_open, all_closed};
ghost use Rattle.views.specs.Simulation.{Simulation, Bisimulation, Layered};

use crate::layers::{AllClosed, AllOpen};
use systems::label::Label;
use systems::system::System;

pub fn open_layer_is_all_open<L: Label, S: System<L>>()
    ensures { (layer : _) → ⟦<AllOpen<S> as System<L>>⟧.meaning layer ≡ all_open (S.System.meaning layer.below) }
{}

pub fn closed_layer_is_all_closed<L: Label, S: System<L>>()
    ensures { (layer : _) → ⟦<AllClosed<S> as System<L>>⟧.meaning layer ≡ all_closed (S.System.meaning layer.below) }
{}

pub fn open_layers_compare_by_simulation<L: Label>()
    ensures { Layered L.Label.below all_open Simulation }
{}

pub fn closed_layers_compare_by_bisimulation<L: Label>()
    ensures { Layered L.Label.below all_closed Bisimulation }
{}
