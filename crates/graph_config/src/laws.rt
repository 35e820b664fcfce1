//! The definitions in words of their own.
ghost use Rattle.graph_config.specs.Document.{AcceptedConfigurations};
ghost use Rattle.graph_config.specs.Locates.{FirstFaults, AcceptedHaveTheForm};

/// A JSON value is read as a configuration exactly where it states this configuration, field by field, and the tables make a
/// schema: at most 32 tables with at most 64 properties each, no name twice, and one kind for all properties of one name.
pub fn accepted_configurations()
    ensures { AcceptedConfigurations }
{}

/// A fault 4, 5 or 52 is one of the form that a configuration has, at its path, and no path before it has one: an object or a
/// list comes before what is in it, fields come in the order of the form and items in that of the list. A fault 6, 7 or 50 comes
/// only where no path has a fault of the form, and so does an accepted configuration.
pub fn the_first_fault()
    ensures first { FirstFaults }
    ensures accepted { AcceptedHaveTheForm }
{}
