//! The data values of a model: what files give is looked at first, then the declarations in order.
ghost use Rattle.std.specs.Prelude.{◌≡◌, [], IfOk, None, Ok, Some, map};
ghost use Rattle.std.specs.Option.{option_map};
ghost use Rattle.opl_eval.specs.ArrayKeys.{IsKeyed};
ghost use Rattle.opl_eval.specs.Evaluation.{declared};
ghost use Rattle.opl_eval.specs.Visible.{position_in, seen};
ghost use Rattle.opl_bind.specs.Bind as spec;
ghost use Rattle.opl_bind.specs.Dimensions.{axes_in, dims_of};
ghost use Rattle.opl_given.specs.Faults.{Binds, Does, Gives, then};
ghost use Rattle.opl_given.specs.Forms.{names_of, number_of, with_declaration, with_enumeration, with_range, with_struct};
ghost use Rattle.opl_given.specs.Items.{array_value};
ghost use Rattle.opl_term.specs.Terms.{add_term};
ghost use Rattle.opl_bind.specs.Written.{written_cells};
ghost use Rattle.opl_given.specs.Readings.{axis_of, given_of, given_value_of, known_of, texts_lent, texts_of};
ghost use Rattle.opl_bind.specs.Readings.{data_of};

use crate::dimension::{axes_in, number_in};
use crate::written::{written_cells, written_value};
use opl_data::DataTree;
use opl_eval::{Environment, Positions};
use opl_given::{
    Axis, BindFault, Form, Given, GivenValue, Names, Override, Types, all_given, array_over,
    copied_names, form_of, given_array, given_names, is_array, keys_of, listed_names, missing,
    position_of, single_value,
};
use opl_list::Seq;
use opl_term::add_term;
use opl_token::Name;
use opl_tree::{
    AddTree, DataDeclTree, DeclTree, DimsTree, EnumNamesTree, EnumTree, InitialTree, RangeTree,
    StructTree,
};
use opl_value::Value;
use std::alloc::{AllocError, Global};
use std::mem;

/// What the declarations of a model come to: the declared names with their values, and the names of enumerations.
#[derive(Drop)]
pub struct DataValues<'a> {
    pub environment: Environment<'a>,
    types: Types<'a>,
}

/// The value of an item that data files give, or that is assigned.
fn given_value(
    alloc: Global,
    given: &Given<'_>,
    overrides: &[Override],
    before: &DataValues<'_>,
    form: &Form,
    name: &Name,
    dims: &Option<DimsTree>,
) -> Result<Value, BindFault>
    ensures value { Binds (spec.external_value (given_of given.now) overrides.now (data_of before.now) form.now name.now dims.now) result }
    ensures keyed { IfOk result IsKeyed }
{
    let value = given.value(name.as_slice());
    match dims {
        None => single_value(alloc, &before.types, form, name, overrides, value),
        Some(dims) => array_given(alloc, overrides, before, form, name, dims, value),
    }
}

/// The array that a data file gives. A value that is missing is told before a fault of its dimensions.
fn array_given(
    alloc: Global,
    overrides: &[Override],
    before: &DataValues<'_>,
    form: &Form,
    name: &Name,
    dims: &DimsTree,
    value: Option<GivenValue<'_>>,
) -> Result<Value, BindFault>
    ensures value { Binds (array_value (known_of before.now.types) form.now name.now overrides.now (axes_in (seen before.now.environment) [] (dims_of dims.now)) (option_map given_value_of value.entry)) result }
    ensures keyed { IfOk result IsKeyed }
{
    let Some(value) = value else {
        return Err(missing(alloc, name)?);
    };
    let axes = axes_in(alloc, &before.environment, dims)?;
    given_array(
        alloc,
        &before.types,
        form,
        name,
        overrides,
        value,
        axes.as_slice(),
    )
}

/// One value, and no array. Typing rules out that an item without dimensions is one.
#[tactic(auto, using(opl_given::proofs::Plain::plain))]
fn alone(at: u32, value: Value) -> Result<Value, BindFault>
    ensures value { Binds (spec.alone at value) result }
    ensures keyed { IfOk result IsKeyed }
{
    if is_array(&value) {
        return Err(BindFault::Shape(0, at));
    }
    Ok(value)
}

/// The value of an item that is written in the model.
fn model_value(
    alloc: Global,
    before: &DataValues<'_>,
    form: &Form,
    dims: &Option<DimsTree>,
    e: &AddTree,
) -> Result<Value, BindFault>
    ensures value { Binds (spec.model_value (data_of before.now) form.now dims.now e.now) result }
    ensures keyed { IfOk result IsKeyed }
{
    match dims {
        None => value_written(alloc, before, form, e),
        Some(dims) => array_written(alloc, before, form, dims, e),
    }
}

/// The value that an expression comes to.
fn value_written(
    alloc: Global,
    before: &DataValues<'_>,
    form: &Form,
    e: &AddTree,
) -> Result<Value, BindFault>
    ensures value { Binds (spec.model_value (data_of before.now) form.now None e.now) result }
    ensures keyed { IfOk result IsKeyed }
{
    let term = add_term(alloc, e)?;
    let value = written_value(alloc, &before.types, &before.environment, form, term.get())?;
    alone(e.at, value)
}

/// The cells that expressions come to.
fn cells_written(
    alloc: Global,
    before: &DataValues<'_>,
    form: &Form,
    dims: &DimsTree,
    axes: &[Axis],
    e: &AddTree,
) -> Result<Seq<Value>, BindFault>
    ensures { Binds (written_cells (known_of before.now.types) (seen before.now.environment) form.now (dims_of dims.now) (map axis_of axes.now) (add_term e.now)) result }
{
    let term = add_term(alloc, e)?;
    written_cells(
        alloc,
        &before.types,
        &before.environment,
        form,
        &dims.first,
        dims.rest.as_slice(),
        axes,
        term.get(),
    )
}

/// The array whose cells expressions come to.
#[tactic(auto, using(opl_given::proofs::Spaces::spaces))]
fn array_written(
    alloc: Global,
    before: &DataValues<'_>,
    form: &Form,
    dims: &DimsTree,
    e: &AddTree,
) -> Result<Value, BindFault>
    ensures value { Binds (spec.model_value (data_of before.now) form.now (Some dims.now) e.now) result }
    ensures keyed { IfOk result IsKeyed }
{
    let axes = axes_in(alloc, &before.environment, dims)?;
    let cells = cells_written(alloc, before, form, dims, axes.as_slice(), e)?;
    Ok(array_over(keys_of(alloc, axes.as_slice())?, cells))
}

/// The value of an item by the form of its type.
#[tactic(auto, unfolding(crate::specs::Bind::item_value))]
fn item_value(
    alloc: Global,
    given: &Given<'_>,
    overrides: &[Override],
    before: &DataValues<'_>,
    t: &DataDeclTree,
) -> Result<Value, BindFault>
    ensures value { Binds (spec.item_value (given_of given.now) overrides.now t.now (data_of before.now)) result }
    ensures keyed { IfOk result IsKeyed }
{
    let form = form_of(alloc, &before.types, &t.kind)?;
    match &t.initial {
        InitialTree::External(_) => {
            given_value(
                alloc,
                given,
                overrides,
                before,
                &form,
                &t.name.text,
                &t.dims,
            )
        }
        InitialTree::Written(e) => model_value(alloc, before, &form, &t.dims, e),
    }
}

/// The names of an enumeration.
fn enumeration_names<'a>(
    alloc: Global,
    given: &Given<'a>,
    t: &'a EnumTree,
) -> Result<Names<'a>, BindFault>
    ensures { Gives texts_of (spec.enumeration_names (given_of given.now) t.now.name.text t.now.names) result }
{
    match &t.names {
        EnumNamesTree::Listed(_, first, rest) => listed_names(alloc, first, rest.as_slice()),
        EnumNamesTree::External(..) => match given.value(t.name.text.as_slice()) {
            Some(value) => given_names(alloc, value.file, value.value),
            None => Err(missing(alloc, &t.name.text)?),
        },
    }
}

/// The value of a range's name: its ends.
#[tactic(auto, using(opl_eval::proofs::Keys::keyed_values))]
fn range_value(low: &i128, high: &i128) -> Value
    ensures value { result ≡ Value.Range low.now high.now }
    ensures keyed { IsKeyed result }
{
    Value::Range(*low, *high)
}

impl<'a> DataValues<'a> {
    /// The names of the enumeration with that number among the declarations, from 0, in their order. There are none where that
    /// declaration is no enumeration, and None comes where no declaration has the number.
    pub fn enumeration(&self, declaration: u32) -> Option<&[&'a [u8]]>
        ensures { texts_lent result ≡ names_of (data_of self.now).known declaration }
    {
        self.types.names(declaration)
    }

    /// The names of each enumeration, by the number of its declaration; none for what is no enumeration.
    #[tactic(auto, unfolding(opl_given::specs::Readings::known_of))]
    pub fn enumerations(&self, alloc: Global) -> Result<Seq<Seq<&'a [u8]>>, AllocError>
        ensures { IfOk result (λ all. map (λ names. map (λ name. name.now) names) all ≡ (data_of self.now).known.enumerations) }
    {
        let mut all = Seq::new(alloc);
        for names in self.types.enumerations.as_slice() {
            all.push(Seq::from_slice(alloc, names.texts.as_slice())?)?;
        }
        Ok(all)
    }

    /// Adds the names of an enumeration that comes next, each with its value.
    fn add_values(&mut self, alloc: Global, names: &[&'a [u8]]) -> Result<(), BindFault>
        ensures { Does (λ _. (known_of self.new.types ≡ known_of self.old.types) × (seen self.new.environment ≡ spec.with_values (number_of (known_of self.old.types)) 0 (map (λ name. name.now) names.now) (seen self.old.environment))) result }
    {
        let declaration = self.types.number();
        add_each(alloc, declaration, names, &mut self.environment)?;
        Ok(())
    }

    /// Adds the names of the enumeration that comes next, where the model lists them.
    #[tactic(auto, using(crate::proofs::Data::kept))]
    fn add_listed(
        &mut self,
        alloc: Global,
        written: &EnumNamesTree,
        names: &[&'a [u8]],
    ) -> Result<(), BindFault>
        ensures { Does (λ _. data_of self.new ≡ spec.with_listed written.now (map (λ name. name.now) names.now) (data_of self.old)) result }
    {
        match written {
            EnumNamesTree::Listed(..) => self.add_values(alloc, names),
            EnumNamesTree::External(..) => Ok(()),
        }
    }

    /// Adds the name of an item with its value.
    #[tactic(auto, using(crate::proofs::Data::kept))]
    fn add_value(&mut self, alloc: Global, name: &'a [u8], value: Value) -> Result<(), BindFault>
        requires { IsKeyed value }
        ensures { Does (λ _. data_of self.new ≡ spec.with_value name.now value (data_of self.old)) result }
    {
        self.environment.declare(alloc, name, value, 0)?;
        no_type(alloc, &mut self.types)
    }

    /// Adds the name of a range with its ends.
    #[tactic(auto, using(crate::proofs::Data::kept))]
    fn add_ends(
        &mut self,
        alloc: Global,
        name: &'a [u8],
        low: &i128,
        high: &i128,
    ) -> Result<(), BindFault>
        ensures { Does (λ _. data_of self.new ≡ spec.with_ends name.now low.now high.now (data_of self.old)) result }
    {
        self.environment
            .declare(alloc, name, range_value(low, high), 0)?;
        range_type(alloc, &mut self.types, name, low, high)
    }

    /// Adds the name of an enumeration with its names.
    #[tactic(auto, using(crate::proofs::Data::kept))]
    fn add_names(
        &mut self,
        alloc: Global,
        name: &'a [u8],
        names: Names<'a>,
    ) -> Result<(), BindFault>
        ensures { Does (λ _. data_of self.new ≡ spec.with_names name.now (texts_of names.entry) (data_of self.old)) result }
    {
        let declaration = self.types.number();
        add_texts(alloc, &mut self.environment, name, &names, declaration)?;
        enumeration_type(alloc, &mut self.types, name, names)
    }

    /// Adds a struct.
    #[tactic(auto, using(crate::proofs::Data::kept))]
    fn add_struct(&mut self, alloc: Global, t: &'a StructTree) -> Result<(), BindFault>
        ensures { Does (λ _. data_of self.new ≡ spec.with_known (with_struct t.now (data_of self.old).known) (data_of self.old)) result }
    {
        struct_type(alloc, &mut self.types, t)
    }

    /// Adds a declaration that is no data.
    #[tactic(auto, using(crate::proofs::Data::kept))]
    fn add_none(&mut self, alloc: Global) -> Result<(), BindFault>
        ensures { Does (λ _. data_of self.new ≡ spec.with_known (with_declaration [] [] (data_of self.old).known) (data_of self.old)) result }
    {
        no_type(alloc, &mut self.types)
    }
}

/// Adds these names of an enumeration, each with its value.
fn add_each<'a>(
    alloc: Global,
    declaration: u32,
    names: &[&'a [u8]],
    environment: &mut Environment<'a>,
) -> Result<(), BindFault>
    ensures { Does (λ _. seen environment.new ≡ spec.with_values declaration 0 (map (λ name. name.now) names.now) (seen environment.old)) result }
{
    for (place, name) in names.iter().enumerate() {
        let value = enumeration_value(declaration, position_of(place)?);
        environment.declare(alloc, name, value, 0)?;
    }
    Ok(())
}

/// A name of an enumeration as a value.
#[tactic(auto, using(opl_eval::proofs::Keys::keyed_values))]
fn enumeration_value(declaration: u32, position: u32) -> Value
    ensures value { result ≡ Value.Enum declaration position }
    ensures keyed { IsKeyed result }
{
    Value::Enum(declaration, position)
}

/// The names of an enumeration as the value of its name.
#[tactic(auto, using(opl_eval::proofs::Keys::keyed_values))]
fn texts_value(alloc: Global, names: &Names<'_>) -> Result<Value, BindFault>
    ensures value { Does (λ value. value ≡ Value.Names (texts_of names.now)) result }
    ensures keyed { IfOk result IsKeyed }
{
    Ok(Value::Names(copied_names(alloc, names)?))
}

/// Adds the name of an enumeration with its names as its value.
fn add_texts<'a>(
    alloc: Global,
    environment: &mut Environment<'a>,
    name: &'a [u8],
    names: &Names<'_>,
    declaration: u32,
) -> Result<(), BindFault>
    ensures { Does (λ _. seen environment.new ≡ declared name.now (Value.Names (texts_of names.now)) declaration (seen environment.old)) result }
{
    let value = texts_value(alloc, names)?;
    environment.declare(alloc, name, value, declaration)?;
    Ok(())
}

/// The next declaration says nothing of types.
fn no_type(alloc: Global, types: &mut Types<'_>) -> Result<(), BindFault>
    ensures { Does (λ _. known_of types.new ≡ with_declaration [] [] (known_of types.old)) result }
{
    let before = mem::replace(types, Types::new(alloc));
    *types = before.with_none(alloc)?;
    Ok(())
}

/// The next declaration is a range.
fn range_type<'a>(
    alloc: Global,
    types: &mut Types<'a>,
    name: &'a [u8],
    low: &i128,
    high: &i128,
) -> Result<(), BindFault>
    ensures { Does (λ _. known_of types.new ≡ with_range name.now low.now high.now (known_of types.old)) result }
{
    let before = mem::replace(types, Types::new(alloc));
    *types = before.with_range(alloc, name, low, high)?;
    Ok(())
}

/// The next declaration is an enumeration.
fn enumeration_type<'a>(
    alloc: Global,
    types: &mut Types<'a>,
    name: &'a [u8],
    names: Names<'a>,
) -> Result<(), BindFault>
    ensures { Does (λ _. known_of types.new ≡ with_enumeration name.now (texts_of names.entry) (known_of types.old)) result }
{
    let before = mem::replace(types, Types::new(alloc));
    *types = before.with_enumeration(alloc, name, names)?;
    Ok(())
}

/// The next declaration is a struct.
fn struct_type<'a>(alloc: Global, types: &mut Types<'a>, t: &'a StructTree) -> Result<(), BindFault>
    ensures { Does (λ _. known_of types.new ≡ with_struct t.now (known_of types.old)) result }
{
    let before = mem::replace(types, Types::new(alloc));
    *types = before.with_struct(alloc, t)?;
    Ok(())
}

/// Adds what a range comes to.
fn add_range<'a>(
    alloc: Global,
    t: &'a RangeTree,
    before: &mut DataValues<'a>,
) -> Result<(), BindFault>
    ensures { Gives (λ _. data_of before.new) (spec.range_declared t.now (data_of before.old)) result }
{
    let low = number_in(alloc, &before.environment, &t.low)?;
    let high = number_in(alloc, &before.environment, &t.high)?;
    before.add_ends(alloc, t.name.text.as_slice(), &low, &high)
}

/// Adds what an item comes to.
fn add_item<'a>(
    alloc: Global,
    given: &Given<'_>,
    overrides: &[Override],
    t: &'a DataDeclTree,
    before: &mut DataValues<'a>,
) -> Result<(), BindFault>
    ensures { Gives (λ _. data_of before.new) (then (spec.item_value (given_of given.now) overrides.now t.now (data_of before.old)) (λ v. Ok (spec.with_value t.now.name.text v (data_of before.old)))) result }
{
    let value = item_value(alloc, given, overrides, before, t)?;
    before.add_value(alloc, t.name.text.as_slice(), value)
}

/// Adds what an enumeration comes to.
fn add_enumeration<'a>(
    alloc: Global,
    given: &Given<'a>,
    t: &'a EnumTree,
    before: &mut DataValues<'a>,
) -> Result<(), BindFault>
    ensures { Gives (λ _. data_of before.new) (then (spec.enumeration_names (given_of given.now) t.now.name.text t.now.names) (λ ns. Ok (spec.with_names t.now.name.text ns (spec.with_listed t.now.names ns (data_of before.old))))) result }
{
    let names = enumeration_names(alloc, given, t)?;
    before.add_listed(alloc, &t.names, names.texts.as_slice())?;
    before.add_names(alloc, t.name.text.as_slice(), names)
}

/// Adds what one more declaration comes to.
fn add_decl<'a>(
    alloc: Global,
    given: &Given<'a>,
    overrides: &[Override],
    t: &'a DeclTree,
    before: &mut DataValues<'a>,
) -> Result<(), BindFault>
    ensures { Gives (λ _. data_of before.new) (spec.with_decl (given_of given.now) overrides.now t.now (data_of before.old)) result }
{
    match t {
        DeclTree::Data(t) => add_item(alloc, given, overrides, t, before),
        DeclTree::Range(t) => add_range(alloc, t, before),
        DeclTree::Enumeration(t) => add_enumeration(alloc, given, t, before),
        DeclTree::Structure(t) => before.add_struct(alloc, t),
        DeclTree::Variable(_)
        | DeclTree::Activity(_)
        | DeclTree::Unary(_)
        | DeclTree::Discrete(_)
        | DeclTree::Schedule(_) => before.add_none(alloc),
    }
}

/// Adds what all declarations come to.
fn add_decls<'a>(
    alloc: Global,
    given: &Given<'a>,
    overrides: &[Override],
    ts: &'a [DeclTree],
    before: &mut DataValues<'a>,
) -> Result<(), BindFault>
    ensures { Gives (λ _. data_of before.new) (spec.with_decls (given_of given.now) overrides.now ts.now (data_of before.old)) result }
{
    for t in ts {
        add_decl(alloc, given, overrides, t, before)?;
    }
    Ok(())
}

/// What is there before, with what all declarations come to.
fn with_decls<'a>(
    alloc: Global,
    given: &Given<'a>,
    overrides: &[Override],
    ts: &'a [DeclTree],
    before: DataValues<'a>,
) -> Result<DataValues<'a>, BindFault>
    ensures { Gives data_of (spec.with_decls (given_of given.now) overrides.now ts.now (data_of before.entry)) result }
{
    let mut all = before;
    add_decls(alloc, given, overrides, ts, &mut all)?;
    Ok(all)
}

/// Before any declaration. It takes no memory.
fn no_data<'a>(alloc: Global, positions: Positions) -> DataValues<'a>
    ensures { data_of result ≡ spec.no_data (position_in positions) }
{
    DataValues {
        environment: Environment::new(alloc, positions),
        types: Types::new(alloc),
    }
}

/// The data values of a model, whose fields have these positions in their structs, from its declarations, the data files and the
/// values that are assigned, of which those that are assigned to one place stand in the order of their assignment.
///
/// First the values that the files give are looked at, in order: `Given` where a name awaits none, `Twice` at a second value. Then the
/// declarations, each in order: `Missing` where no value is given, `Shape` and `Outside` where a value is not of its type, `Override`
/// where an assigned value does not fit, `Eval` where an expression has no value.
#[tactic(auto, unfolding(crate::specs::Bind::bound))]
pub fn bind<'a>(
    alloc: Global,
    positions: Positions,
    decls: &'a [DeclTree],
    files: &'a [DataTree],
    overrides: &[Override],
) -> Result<DataValues<'a>, BindFault>
    ensures { Gives data_of (spec.bound (position_in positions) decls.now files.now overrides.now) result }
{
    let given = all_given(alloc, decls, files)?;
    with_decls(alloc, &given, overrides, decls, no_data(alloc, positions))
}
